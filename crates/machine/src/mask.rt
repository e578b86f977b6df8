// Works that write mask bits: compares. All elements below a length are compared, which changes nothing; then a set says whose bits are
// replaced.
ghost use Rattle.std.specs.Prelude.{◌≡◌, true, not, ◌||◌, ℕ, ◌<◌, ◌≤◌, ◌/◌, ◌%◌, eqb};
ghost use Rattle.numbers.specs.Choice.{pick};
ghost use Rattle.numbers.specs.Bits.{bit};
ghost use Rattle.opcodes.specs.Opcodes.{writes_mask};
ghost use Rattle.element.specs.Working.{is_compare};
ghost use Rattle.state.specs.declared.Control.{Control};
ghost use Rattle.machine.specs.Run.{Gathered, run as run_of};
ghost use Rattle.machine.specs.Step.{worked};
ghost use Rattle.opcodes.specs.Working.{Below};
ghost use Rattle.machine.specs.Working.{compared_at, odd_from, OddBelow, effected, done_for};

use crate::{Effect, Found, operand};
use element::Out;
use numbers::bits;
use opcodes::Instruction;
use opcodes::works::Work;
use state::Element;

// What a relation finds, from what its bits <1:0> found. With bit <2> it is the opposite: the elements that were neither found nor
// refused, and every bit past the length.
fn opposed(m: Found, relation: u64) -> Found
    ensures found { (i : ℕ) → i < 64 → bit result.found i ≡ pick (eqb (relation / 4 % 2) 1) (not (bit m.found i || bit m.refused i)) (bit m.found i) }
    ensures refused { result.refused ≡ m.refused }
{
    Found {
        found: if relation / 4 % 2 == 1 {
            !(m.found | m.refused)
        } else {
            m.found
        },
        refused: m.refused,
    }
}

// The compare of one element.
fn one(
    elements: &[u64; 1024],
    work: Work,
    relation: u64,
    form: bool,
    instruction: Instruction,
    scalar: u64,
    i: Element,
) -> Out
    requires { (is_compare work ≡ true) × Below instruction × (i.0 < 64) }
    ensures { result ≡ compared_at work relation form instruction scalar elements.now i.0 }
{
    let a = operand::first(elements, form, scalar, instruction.va, i);
    let b = operand::element_of(elements, instruction.vb, i);
    element::compared(work, relation, a, b)
}

// An instruction that compares, and the scalar that is handed to it. Its form is a const parameter: the compiler makes loops for each.
#[derive(Clone, Copy)]
struct Compares<const SCALAR: bool> {
    instruction: Instruction,
    scalar: u64,
}

impl<const SCALAR: bool> Compares<SCALAR> {
    // The elements below n, from the highest. It is put in line where it is called, with what is constant there.
    #[inline(always)]
    fn every(self, elements: &[u64; 1024], work: Work, relation: u64, n: usize) -> Found
        requires { (is_compare work ≡ true) × Below self.instruction × (self.instruction.scalar ≡ SCALAR) × (n ≤ 64) }
        ensures found { result.found ≡ odd_from (λ i. (compared_at work relation self.entry.instruction.scalar self.entry.instruction self.entry.scalar elements.now i).value) 0 n }
        ensures refused { result.refused ≡ odd_from (λ i. (compared_at work relation self.entry.instruction.scalar self.entry.instruction self.entry.scalar elements.now i).types / 4) 0 n }
    {
        let mut found: u64 = 0;
        let mut refused: u64 = 0;
        for i in (0..n).rev() {
            let o = one(
                elements,
                work,
                relation,
                SCALAR,
                self.instruction,
                self.scalar,
                Element(i),
            );
            found = found * 2 + o.value % 2;
            refused = refused * 2 + o.types / 4 % 2;
        }
        Found { found, refused }
    }

    // One work, with a constant for each relation: the compiler makes a loop for each.
    #[inline(always)]
    fn by_relation(self, elements: &[u64; 1024], work: Work, relation: u64, n: usize) -> Found
        requires { (is_compare work ≡ true) × Below self.instruction × (self.instruction.scalar ≡ SCALAR) × (n ≤ 64) }
        ensures found { result.found ≡ odd_from (λ i. (compared_at work relation self.entry.instruction.scalar self.entry.instruction self.entry.scalar elements.now i).value) 0 n }
        ensures refused { result.refused ≡ odd_from (λ i. (compared_at work relation self.entry.instruction.scalar self.entry.instruction self.entry.scalar elements.now i).types / 4) 0 n }
    {
        match relation {
            0 => self.every(elements, work, 0, n),
            1 => self.every(elements, work, 1, n),
            2 => self.every(elements, work, 2, n),
            // No accepted control word has another relation.
            _ => self.every(elements, work, relation, n),
        }
    }

    // Longwords or F.
    fn by_work(self, elements: &[u64; 1024], relation: u64, n: usize) -> Found
        requires { (is_compare self.instruction.work ≡ true) × Below self.instruction × (self.instruction.scalar ≡ SCALAR) × (n ≤ 64) }
        ensures found { result.found ≡ odd_from (λ i. (compared_at self.entry.instruction.work relation self.entry.instruction.scalar self.entry.instruction self.entry.scalar elements.now i).value) 0 n }
        ensures refused { result.refused ≡ odd_from (λ i. (compared_at self.entry.instruction.work relation self.entry.instruction.scalar self.entry.instruction self.entry.scalar elements.now i).types / 4) 0 n }
    {
        match self.instruction.work {
            Work::CompareLongword => {
                self.by_relation(elements, Work::CompareLongword, relation, n)
            }
            // F: the only compare that is left.
            _ => self.by_relation(elements, Work::CompareF, relation, n),
        }
    }

    // The loops go by the relation's bits <1:0>; bit <2> is looked at once, after them. Bits from n on are left open.
    fn found(self, elements: &[u64; 1024], relation: u64, n: usize) -> Found
        requires { (is_compare self.instruction.work ≡ true) × Below self.instruction × (self.instruction.scalar ≡ SCALAR) × (n ≤ 64) }
        ensures found { OddBelow (λ i. (compared_at self.entry.instruction.work relation self.entry.instruction.scalar self.entry.instruction self.entry.scalar elements.now i).value) n result.found }
        ensures refused { OddBelow (λ i. (compared_at self.entry.instruction.work relation self.entry.instruction.scalar self.entry.instruction self.entry.scalar elements.now i).types / 4) n result.refused }
    {
        opposed(self.by_work(elements, relation % 4, n), relation)
    }
}

// The compares of the elements below n, by the form.
fn found(
    elements: &[u64; 1024],
    relation: u64,
    instruction: Instruction,
    scalar: u64,
    n: usize,
) -> Found
    requires { (is_compare instruction.work ≡ true) × Below instruction × (n ≤ 64) }
    ensures found { OddBelow (λ i. (compared_at instruction.work relation instruction.scalar instruction scalar elements.now i).value) n result.found }
    ensures refused { OddBelow (λ i. (compared_at instruction.work relation instruction.scalar instruction scalar elements.now i).types / 4) n result.refused }
{
    if instruction.scalar {
        let compares = Compares::<true> {
            instruction,
            scalar,
        };
        return compares.found(elements, relation, n);
    }
    let compares = Compares::<false> {
        instruction,
        scalar,
    };
    compares.found(elements, relation, n)
}

// The compares of the elements of a set that lies below n.
#[inline(never)]
pub fn over(
    elements: &[u64; 1024],
    instruction: Instruction,
    scalar: u64,
    which: u64,
    n: usize,
    vmr: u64,
    vcr: u64,
) -> Effect
    requires below { Below instruction × (n ≤ 64) × (writes_mask instruction ≡ true) }
    requires within { (i : ℕ) → bit which i ≡ true → i < n }
    ensures { (c : Control) (g : Gathered) → c.vmr ≡ vmr → c.vcr ≡ vcr → effected elements.now instruction result c g ≡ done_for which instruction scalar (run_of elements.now c g) }
{
    let m = found(
        elements,
        instruction.vc.0 as u64 % 8,
        instruction,
        scalar,
        n,
    );
    let refused = m.refused & which;
    Effect {
        vmr: bits::replaced(vmr, m.found, which),
        vcr,
        notes: if refused == 0 { 0 } else { 4 },
        wrote: 0,
    }
}

// The compare of one element, which is operated on.
pub fn at(
    elements: &[u64; 1024],
    instruction: Instruction,
    scalar: u64,
    i: Element,
    vmr: u64,
    vcr: u64,
) -> Effect
    requires { Below instruction × (i.0 < 64) × (writes_mask instruction ≡ true) }
    ensures { (c : Control) (g : Gathered) → c.vmr ≡ vmr → c.vcr ≡ vcr → effected elements.now instruction result c g ≡ worked instruction scalar i.0 (run_of elements.now c g) }
{
    let o = one(
        elements,
        instruction.work,
        instruction.vc.0 as u64 % 8,
        instruction.scalar,
        instruction,
        scalar,
        i,
    );
    Effect {
        vmr: bits::with_bit(vmr, i.0, o.value % 2),
        vcr,
        notes: o.types,
        wrote: 0,
    }
}
