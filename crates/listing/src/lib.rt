// The listing of a state and of a saved file. A call that prints into lent bytes gives back the text's length.
#![tactic(auto)]

mod write;

ghost use Rattle.std.specs.Prelude.{◌≡◌};
ghost use Rattle.state.specs.Outcome.{outcome};
ghost use Rattle.state.specs.State.{state as state_of};
ghost use Rattle.listing.specs.Text.{state_listed, answer_listed, file_listed};

use crate::write::Writer;
use state::answer::{Answer, Refusal};
use state::{Control, answer};

// The bytes that hold every listing.
const LISTING_ROOM: usize = 25663;

// The bytes that hold every answer's line.
const ANSWER_ROOM: usize = 42;

// Prints the listing of a state.
pub fn list_state(elements: &[u64; 1024], control: Control, text: &mut [u8]) -> Answer
    ensures { outcome result text.new ≡ state_listed (state_of elements.now control) text.old }
{
    if !state::in_range(control) {
        return Err(Refusal::OutOfRange);
    }
    if text.len() < LISTING_ROOM {
        return Err(Refusal::BadFile(0));
    }
    let mut writer = Writer::new(text);
    writer.element_lines(elements);
    writer.control_lines(control);
    Ok(writer.at as u64)
}

// Prints an answer's line.
pub fn list_answer(given: Answer, text: &mut [u8]) -> Answer
    ensures { outcome result text.new ≡ answer_listed given text.old }
{
    if text.len() < ANSWER_ROOM {
        return Err(Refusal::BadFile(0));
    }
    let number = answer::number(given) as u64;
    let beside = answer::beside(given);
    let mut writer = Writer::new(text);
    writer.number(10, write::width(number), number);
    writer.line(b" ", 10, write::width(beside), beside);
    Ok(writer.at as u64)
}

// Prints the listing of a saved file, or its first bad record.
pub fn list_file(file: &[u8], text: &mut [u8]) -> Answer
    ensures { outcome result text.new ≡ file_listed file.now text.old }
{
    if text.len() < LISTING_ROOM {
        return Err(Refusal::BadFile(0));
    }
    let mut elements = [0u64; 1024];
    match saved::load(&mut elements, Control::default(), file) {
        Ok(control) => list_state(&elements, control, text),
        Err(refusal) => {
            let n = refusal.beside();
            let mut writer = Writer::new(text);
            writer.line(b"bad record ", 10, write::width(n), n);
            Ok(writer.at as u64)
        }
    }
}
