// The runs of an accepted queue: straight through, and by a list.
ghost use Rattle.std.specs.Prelude.{◌≡◌, ℕ, ◌≤◌, ◌<◌, length, get_or};
ghost use Rattle.machine.specs.Run.{under_way};
ghost use Rattle.order.specs.Order.{run};
ghost use Rattle.order.specs.Steps.{position};
ghost use Rattle.queue.specs.CallsWorking.{Runs, decoded_at, act_by, through_by};

use machine::{Progress, instruction};
use opcodes::Instruction;
use state::Element;

// An accepted queue: its instructions, decoded, and for each position its scalar.
#[derive(Clone, Copy)]
pub(crate) struct Program<'a> {
    pub instructions: &'a [Instruction; 16],
    pub scalars: &'a [u64],
    ghost few: { length scalars.now ≤ 16 },
    ghost runs: { (k : ℕ) → k < length scalars.now → Runs (decoded_at instructions.now k) },
}

impl Program<'_> {
    // Each instruction in queue order, done whole on what the last one left.
    pub(crate) fn straight(
        &self,
        elements: &mut [u64; 1024],
        marks: &mut [u64; 16],
        begun: Progress,
    ) -> Progress
        requires { begun.control.vlr ≤ 64 }
        ensures { under_way elements.new marks.new result ≡ through_by self.now.instructions.now self.now.scalars.now (length self.now.scalars.now) (under_way elements.old marks.old begun) }
    {
        let mut progress = begun;
        for k in 0..self.scalars.len() {
            progress = instruction::whole(
                &mut *elements,
                &mut *marks,
                progress,
                self.instructions[k],
                self.scalars[k],
            );
        }
        progress
    }

    // One entry of a list: its step.
    fn enter(
        &self,
        elements: &mut [u64; 1024],
        marks: &mut [u64; 16],
        begun: Progress,
        x: u64,
    ) -> Progress
        requires { (begun.control.vlr ≤ 64) × (position x < length self.now.scalars.now) }
        ensures { under_way elements.new marks.new result ≡ act_by self.now.instructions.now self.now.scalars.now x (under_way elements.old marks.old begun) }
    {
        let p = (x / 64) as usize;
        instruction::step(
            elements,
            marks,
            begun,
            self.instructions[p],
            self.scalars[p],
            Element((x % 64) as usize),
        )
    }

    // The steps of a permitted list, one entry at a time: each is done on what the last one left.
    pub(crate) fn walk(
        &self,
        elements: &mut [u64; 1024],
        marks: &mut [u64; 16],
        begun: Progress,
        list: &[u64],
    ) -> Progress
        requires short { begun.control.vlr ≤ 64 }
        requires positions { (i : ℕ) → i < length list.now → position (get_or list.now i 0) < length self.now.scalars.now }
        ensures { under_way elements.new marks.new result ≡ run (act_by self.now.instructions.now self.now.scalars.now) list.now (under_way elements.old marks.old begun) }
    {
        let mut progress = begun;
        for x in list {
            progress = self.enter(&mut *elements, &mut *marks, progress, *x);
        }
        progress
    }
}
