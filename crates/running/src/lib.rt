// The runner: a saved file, then instruction records, run as one queue straight through.
#![tactic(auto)]

mod record;
mod records;

ghost use Rattle.std.specs.Prelude.{◌≡◌, ◌≤◌, IfOk, length};
ghost use Rattle.state.specs.Answer.{answered};
ghost use Rattle.state.specs.Outcome.{outcome, control_left};
ghost use Rattle.state.specs.State.{state as state_of};
ghost use Rattle.running.specs.Working.{file_size};
ghost use Rattle.running.specs.Runner.{records_run, input_run, input_printed, none};

use state::answer::{Answer, Refusal};
use state::{Control, answer};

// The bytes that hold every answer's line and every listing.
const TEXT_ROOM: usize = 25705;

// Runs the records on a state.
fn run_records(
    elements: &mut [u64; 1024],
    control: Control,
    bytes: &[u8],
) -> Result<Control, Refusal>
    ensures { outcome (answered result) (state_of elements.new (control_left control result)) ≡ records_run bytes.now (state_of elements.old control) }
{
    if !records::well_formed(bytes) {
        return Err(Refusal::QueueRefused);
    }
    let n = bytes.len() / 16;
    let mut opcodes = [0u8; 16];
    let mut cntrls = [0u16; 16];
    let mut scalars = [0u64; 16];
    records::take_apart(bytes, n, &mut opcodes, &mut cntrls, &mut scalars);
    // The runner shows no marks.
    let mut marks = [0u64; 16];
    queue::run(
        elements,
        &mut marks,
        control,
        &opcodes[..n],
        &cntrls[..n],
        &scalars[..n],
    )
}

// How many of n bytes are the file's.
fn file_size(n: usize) -> usize
    ensures { (result ≡ file_size n) × (result ≤ n) }
{
    n.min(16464)
}

// Loads the file and runs the records after it. Of a refused run the answer alone is printed.
fn run_input(elements: &mut [u64; 1024], input: &[u8]) -> Result<Control, Refusal>
    requires { length elements.old ≡ 1024 }
    ensures answer { answered result ≡ (input_run input.now (state_of elements.old none)).answer }
    ensures left { IfOk result (λ c. state_of elements.new c ≡ (input_run input.now (state_of elements.old none)).left) }
{
    let size = file_size(input.len());
    let control = saved::load(&mut *elements, Control::default(), &input[..size])?;
    run_records(elements, control, &input[size..])
}

// Prints the answer and, on 0, the listing of the new state.
pub fn print_run(input: &[u8], text: &mut [u8]) -> Answer
    ensures { outcome result text.new ≡ input_printed input.now text.old }
{
    if text.len() < TEXT_ROOM {
        return Err(Refusal::BadFile(0));
    }
    let mut elements = [0u64; 1024];
    // There is room for both texts, and a run leaves a state in range, so a text's length comes each time.
    match run_input(&mut elements, input) {
        Ok(control) => {
            let line = answer::beside(listing::list_answer(Ok(0), &mut *text));
            let after = listing::list_state(&elements, control, &mut text[line as usize..]);
            Ok(line + answer::beside(after))
        }
        Err(refusal) => listing::list_answer(Err(refusal), text),
    }
}
