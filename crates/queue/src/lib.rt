// The two calls on a queue of register instructions: straight through, and by a list of its steps.
#![tactic(auto)]

ghost use Rattle.std.specs.Prelude.{◌≡◌};
ghost use Rattle.state.specs.Answer.{number_of, beside_of, answered};
ghost use Rattle.state.specs.Marks.{marked};
ghost use Rattle.state.specs.Outcome.{outcome, control_left};
ghost use Rattle.state.specs.State.{state};
ghost use Rattle.touch.specs.Parts.{queue};
ghost use Rattle.queue.specs.Run.{queue_run, walked_run, ordered_run};
ghost use Rattle.queue.specs.Claim.{AcceptedClaim};

use machine::run;
use order;
use runs::Program;
use state::Control;
use state::answer::Refusal;
use touch::Tables;

mod acceptance;
mod runs;

// A queue, straight through: each instruction is done whole on what the last one left.
pub fn run(
    elements: &mut [u64; 1024],
    marks: &mut [u64; 16],
    control: Control,
    opcodes: &[u8],
    cntrls: &[u16],
    scalars: &[u64],
) -> Result<Control, Refusal>
    ensures { outcome (answered result) (marked (state elements.new (control_left control result)) marks.new) ≡ queue_run (queue opcodes.now cntrls.now scalars.now) (marked (state elements.old control) marks.old) }
{
    let mut instructions = [acceptance::placeholder(); 16];
    acceptance::accept(control, opcodes, cntrls, scalars, &mut instructions)?;
    let program = Program {
        instructions: &instructions,
        scalars,
    };
    let progress = program.straight(elements, marks, run::begin(control));
    Ok(run::end(progress))
}

// A queue by a list of its steps: the entries of a permitted list are done one after the other, which ends in the state and the marks of
// the straight run; any other list is refused with 9 and its first bad position, or its length if steps are missing.
pub fn run_order(
    elements: &mut [u64; 1024],
    marks: &mut [u64; 16],
    control: Control,
    opcodes: &[u8],
    cntrls: &[u16],
    scalars: &[u64],
    list: &[u64],
) -> Result<Control, Refusal>
    ensures straight { outcome (answered result) (marked (state elements.new (control_left control result)) marks.new) ≡ ordered_run (queue opcodes.now cntrls.now scalars.now) list.now (marked (state elements.old control) marks.old) }
    ensures walked { outcome (answered result) (marked (state elements.new (control_left control result)) marks.new) ≡ walked_run (queue opcodes.now cntrls.now scalars.now) list.now (marked (state elements.old control) marks.old) }
    ensures demand { AcceptedClaim (queue opcodes.now cntrls.now scalars.now) list.now (marked (state elements.old control) marks.old) (number_of (answered result)) (beside_of (answered result)) (marked (state elements.new (control_left control result)) marks.new) }
{
    let mut instructions = [acceptance::placeholder(); 16];
    acceptance::accept(control, opcodes, cntrls, scalars, &mut instructions)?;
    let mut bound = [0u64; 16];
    let mut tables = Tables::new();
    for k in 0..opcodes.len() {
        bound[k] = tables.bind(instructions[k], k);
    }
    order::check(opcodes.len(), control.vlr, tables.iotas(), &bound, list).map_err(
        |place| Refusal::OrderRefused(place),
    )?;
    let program = Program {
        instructions: &instructions,
        scalars,
    };
    let progress = program.walk(elements, marks, run::begin(control), list);
    Ok(run::end(progress))
}
