// What each position of a queue is bound to. A set is a number whose bit k says that position k is in it; a table has the set of the positions so
// far that read, or write, each place: registers 0 to 15, the mask bits 16, the count 17.
#![tactic(auto)]

ghost use Rattle.std.specs.Prelude.{◌≡◌, true, false, ◌<◌, get_or, replicate};
ghost use Rattle.opcodes.specs.Opcodes.{is_memory};
ghost use Rattle.opcodes.specs.Working.{Below};
ghost use Rattle.touch.specs.BindsWorking.{target as target_of};
ghost use Rattle.touch.specs.TablesWorking.{set_if, joined_at, bound_to, readers_with, writers_with};

use opcodes::Instruction;

// The places of the mask bits and the count, past the registers'.
const MASK: usize = 16;

const COUNT: usize = 17;

// The register that an instruction writes, or 16 where it writes mask bits.
fn target(instruction: Instruction) -> u64
    requires { Below instruction }
    ensures { (result ≡ target_of instruction) × (result < 17) }
{
    if instruction.work.writes_mask() {
        MASK as u64
    } else {
        instruction.vc.0 as u64
    }
}

// Position p joins the set of a place.
fn join(table: &mut [u64; 18], place: usize, p: usize)
    requires { (place < 18) × (p < 64) }
    ensures { table.new ≡ joined_at true table.old place p }
{
    table[place] = table[place] | (1 << p);
}

// The positions so far that read each place, and those that write it.
#[derive(Clone, Copy)]
pub struct Tables {
    pub readers: [u64; 18],
    pub writers: [u64; 18],
}

impl Tables {
    // None so far.
    pub fn new() -> Tables
        ensures { (result.readers ≡ replicate 18 0) × (result.writers ≡ replicate 18 0) }
    {
        Tables {
            readers: [0; 18],
            writers: [0; 18],
        }
    }

    // The positions so far that write the count: only IOTAs do.
    pub fn iotas(&self) -> u64
        ensures { result ≡ get_or self.now.writers 17 0 }
    {
        self.writers[COUNT]
    }

    // Position p reads a place where the test says so: the positions that have written it.
    fn read(&mut self, test: bool, place: usize, p: usize) -> u64
        requires { (place < 18) × (p < 64) }
        ensures { (result ≡ set_if test self.old.writers place) × (self.new.readers ≡ joined_at test self.old.readers place p) × (self.new.writers ≡ self.old.writers) }
    {
        if test {
            join(&mut self.readers, place, p);
            self.writers[place]
        } else {
            0
        }
    }

    // The positions so far that p is bound to. It joins the sets of what it reads and writes.
    pub fn bind(&mut self, instruction: Instruction, p: usize) -> u64
        requires { Below instruction × (p < 64) × (is_memory instruction.work ≡ false) }
        ensures { (result ≡ bound_to instruction self.old.readers self.old.writers) × (self.new.readers ≡ readers_with instruction p self.old.readers) × (self.new.writers ≡ writers_with instruction p self.old.writers) }
    {
        let work = instruction.work;
        let place = target(instruction) as usize;
        let before = self.readers[place];
        let wrote = self.writers[place];
        let count = self.writers[COUNT];
        let vb = self.read(
            work.reads_vb(instruction.scalar),
            instruction.vb.0 as usize,
            p,
        );
        let va = self.read(
            work.reads_va(instruction.scalar),
            instruction.va.0 as usize,
            p,
        );
        let mask = self.read(instruction.moe | work.ignores_moe(), MASK, p);
        join(&mut self.writers, place, p);
        let bound = wrote | (vb | va | mask) | before;
        if work.in_one_step() {
            join(&mut self.writers, COUNT, p);
            return bound | count;
        }
        bound
    }
}
