// Works that write elements, for the elements of a set: short works, floating sums and differences, products and quotients, and conversions. The
// compiler makes loops for each form of an instruction; and of each short work two, one of them for all elements below a length: the work is a constant where
// its loops are asked for, and what lies between is put in line.
ghost use Rattle.std.specs.Prelude.{◌≡◌, true, false, ◌<◌, ◌≤◌};
ghost use Rattle.numbers.specs.Working.{of_ones};
ghost use Rattle.numbers.specs.Rising.{rising};
ghost use Rattle.element.specs.Working.{is_short, sum_work, product_work};
ghost use Rattle.opcodes.specs.Working.{Below, is_lane_work};
ghost use Rattle.machine.specs.Working.{lanes, landed, lane, lane_of, lane_in, plainly, short_lane, converting};

use crate::operand;
use element::Out;
use numbers::bits;
use opcodes::works::Work;
use opcodes::{Field, Instruction};
use state::{Element, Register};

// Element i of vc receives a result; the types that it recorded join the others.
fn land(elements: &mut [u64; 1024], types: u64, o: Out, vc: Field, i: Element) -> u64
    requires { (vc.0 < 16) × (i.0 < 64) }
    ensures { lanes elements.new result ≡ landed vc.0 i.0 (lanes elements.old types) o }
{
    elements[state::place(Register::from(vc), i)] = o.value;
    types | o.types
}

// An instruction and what its works take beside elements. Its form is a const parameter: the compiler makes loops for each.
#[derive(Clone, Copy)]
struct Lanes<const SCALAR: bool> {
    instruction: Instruction,
    scalar: u64,
    // The mask bits that are MTF.
    mask: u64,
    // The set of its elements.
    which: u64,
    // A length. Where the set is all elements below it, short works need not look at the set.
    n: usize,
}

impl<const SCALAR: bool> Lanes<SCALAR> {
    // A short work of one element, which records as with EXC.
    #[inline(always)]
    #[tactic(auto, unfolding(crate::specs::Working::lane_of, crate::specs::Working::lane_in))]
    fn short(
        self,
        elements: &mut [u64; 1024],
        types: u64,
        work: Work,
        matches: bool,
        i: Element,
    ) -> u64
        requires { (is_short work ≡ true) × Below self.instruction × (self.instruction.scalar ≡ SCALAR) × (i.0 < 64) }
        ensures { lanes elements.new result ≡ lane_in self.entry.instruction.scalar (plainly work true matches) self.entry.instruction self.entry.scalar i.0 (lanes elements.old types) }
    {
        let instruction = self.instruction;
        let a = operand::first(elements, SCALAR, self.scalar, instruction.va, i);
        let b = operand::element_of(elements, instruction.vb, i);
        let c = operand::element_of(elements, instruction.vc, i);
        let o = element::short(work, true, matches, a, b, c);
        land(elements, types, o, instruction.vc, i)
    }

    // A short work of every element below n. Merge alone looks at the mask: each turn takes its lowest bit and halves the rest.
    #[inline(always)]
    #[tactic(auto, unfolding(numbers::specs::Rising::rising))]
    fn every(self, elements: &mut [u64; 1024], work: Work) -> u64
        requires { (is_short work ≡ true) × Below self.instruction × (self.instruction.scalar ≡ SCALAR) × (self.n ≤ 64) }
        ensures { lanes elements.new result ≡ rising (short_lane work true self.entry.mask self.entry.instruction self.entry.scalar) self.entry.n (lanes elements.old 0) }
    {
        let mut types: u64 = 0;
        let mut left = self.mask;
        for i in 0..self.n {
            types = self.short(elements, types, work, left % 2 == 1, Element(i));
            left /= 2;
        }
        types
    }

    // A short work of the elements of the set, which may be all below n.
    #[inline(always)]
    #[tactic(auto, using(crate::proofs::LaneLoops::end_walk))]
    fn chosen(self, elements: &mut [u64; 1024], work: Work) -> u64
        requires { (is_short work ≡ true) × Below self.instruction × (self.instruction.scalar ≡ SCALAR) × (self.n ≤ 64) }
        ensures { lanes elements.new result ≡ rising (of_ones (short_lane work true self.entry.mask self.entry.instruction self.entry.scalar) self.entry.which) 64 (lanes elements.old 0) }
    {
        if self.which == bits::low_bits(u64::MAX, self.n as u64) {
            return self.every(elements, work);
        }
        let mut types: u64 = 0;
        for i in bits::ones_of(self.which) {
            let matches = bits::bit(self.mask, i);
            types = self.short(elements, types, work, matches, Element(i));
        }
        types
    }

    // A short work of the elements of the set. Integer overflow is recorded only with EXC, which is looked at once, after the loop.
    #[inline(always)]
    #[tactic(auto, using(crate::proofs::Recording::gated_set))]
    fn short_work(self, elements: &mut [u64; 1024], work: Work) -> u64
        requires { (is_short work ≡ true) × Below self.instruction × (self.instruction.scalar ≡ SCALAR) × (self.n ≤ 64) }
        ensures { lanes elements.new result ≡ rising (of_ones (short_lane work self.entry.instruction.exc self.entry.mask self.entry.instruction self.entry.scalar) self.entry.which) 64 (lanes elements.old 0) }
    {
        let types = self.chosen(elements, work);
        if self.instruction.exc { types } else { 0 }
    }

    // The sums of the elements of the set, or the differences. The loop itself tells special operands from others: a function of one element with
    // both cases is too large for the compiler to put into two loops.
    #[inline(always)]
    #[tactic(auto, using(crate::proofs::LaneLoops::end_walk), unfolding(crate::specs::Working::lane_of, crate::specs::Working::lane_in))]
    fn sums(self, elements: &mut [u64; 1024], minus: bool) -> u64
        requires { Below self.instruction × (self.instruction.scalar ≡ SCALAR) }
        ensures { lanes elements.new result ≡ rising (of_ones (lane_in self.entry.instruction.scalar (plainly (sum_work minus) self.entry.instruction.exc false) self.entry.instruction self.entry.scalar) self.entry.which) 64 (lanes elements.old 0) }
    {
        let instruction = self.instruction;
        let mut types: u64 = 0;
        for i in bits::ones_of(self.which) {
            let i = Element(i);
            let a = operand::first(elements, SCALAR, self.scalar, instruction.va, i);
            let b = operand::element_of(elements, instruction.vb, i);
            let c = operand::element_of(elements, instruction.vc, i);
            let o = if element::is_special(a, b) {
                element::special_sum_or_difference(minus, a, b, c)
            } else {
                element::common_sum_or_difference(minus, instruction.exc, a, b, c)
            };
            types = land(elements, types, o, instruction.vc, i);
        }
        types
    }

    // The products of the elements of the set, or the quotients.
    #[inline(always)]
    #[tactic(auto, using(crate::proofs::LaneLoops::end_walk), unfolding(crate::specs::Working::lane_of, crate::specs::Working::lane_in))]
    fn products(self, elements: &mut [u64; 1024], divide: bool) -> u64
        requires { Below self.instruction × (self.instruction.scalar ≡ SCALAR) }
        ensures { lanes elements.new result ≡ rising (of_ones (lane_in self.entry.instruction.scalar (plainly (product_work divide) self.entry.instruction.exc false) self.entry.instruction self.entry.scalar) self.entry.which) 64 (lanes elements.old 0) }
    {
        let instruction = self.instruction;
        let mut types: u64 = 0;
        for i in bits::ones_of(self.which) {
            let i = Element(i);
            let a = operand::first(elements, SCALAR, self.scalar, instruction.va, i);
            let b = operand::element_of(elements, instruction.vb, i);
            let c = operand::element_of(elements, instruction.vc, i);
            let o = element::product(divide, instruction.exc, a, b, c);
            types = land(elements, types, o, instruction.vc, i);
        }
        types
    }

    // One conversion of the elements of the set.
    #[inline(always)]
    #[tactic(auto, using(crate::proofs::LaneLoops::end_walk), unfolding(crate::specs::Working::lane_of, crate::specs::Working::lane_in))]
    fn converts(self, elements: &mut [u64; 1024], conversion: u64) -> u64
        requires { Below self.instruction }
        ensures { lanes elements.new result ≡ rising (of_ones (lane_of (converting self.entry.instruction.exc conversion) self.entry.instruction 0) self.entry.which) 64 (lanes elements.old 0) }
    {
        let instruction = self.instruction;
        let mut types: u64 = 0;
        for i in bits::ones_of(self.which) {
            let i = Element(i);
            let b = operand::element_of(elements, instruction.vb, i);
            let c = operand::element_of(elements, instruction.vc, i);
            let o = element::converted(instruction.exc, conversion, b, c);
            types = land(elements, types, o, instruction.vc, i);
        }
        types
    }

    // Conversions, with a constant for each: what is neither 5 nor 4 is a longword to F.
    #[tactic(auto, using(crate::proofs::LaneLoops::other_conversions))]
    fn conversions(self, elements: &mut [u64; 1024]) -> u64
        requires { Below self.instruction }
        ensures { lanes elements.new result ≡ rising (of_ones (lane_of (converting self.entry.instruction.exc self.entry.instruction.va.0) self.entry.instruction 0) self.entry.which) 64 (lanes elements.old 0) }
    {
        match self.instruction.va.0 {
            5 => self.converts(elements, 5),
            4 => self.converts(elements, 4),
            _ => self.converts(elements, 1),
        }
    }

    // The work of the elements of the set.
    #[tactic(auto, using(crate::proofs::LaneLoops::short_set, crate::proofs::LaneLoops::floating_set, crate::proofs::LaneLoops::convert_set), unfolding(element::specs::Receives::result_of, opcodes::specs::Works::row_of))]
    fn run(self, elements: &mut [u64; 1024]) -> u64
        requires { Below self.instruction × (self.instruction.scalar ≡ SCALAR) × (is_lane_work self.instruction.work ≡ true) × (self.n ≤ 64) }
        ensures { lanes elements.new result ≡ rising (of_ones (lane self.entry.instruction self.entry.scalar self.entry.mask) self.entry.which) 64 (lanes elements.old 0) }
    {
        match self.instruction.work {
            Work::AddLongword => self.short_work(elements, Work::AddLongword),
            Work::SubtractLongword => self.short_work(elements, Work::SubtractLongword),
            Work::MultiplyLongword => self.short_work(elements, Work::MultiplyLongword),
            Work::BitSet => self.short_work(elements, Work::BitSet),
            Work::ExclusiveOr => self.short_work(elements, Work::ExclusiveOr),
            Work::BitClear => self.short_work(elements, Work::BitClear),
            Work::ShiftRight => self.short_work(elements, Work::ShiftRight),
            Work::ShiftLeft => self.short_work(elements, Work::ShiftLeft),
            Work::AddF => self.sums(elements, false),
            Work::SubtractF => self.sums(elements, true),
            Work::MultiplyF => self.products(elements, false),
            Work::DivideF => self.products(elements, true),
            Work::Convert => self.conversions(elements),
            // Merge: the only one that is left.
            _ => self.short_work(elements, Work::Merge),
        }
    }
}

// The work of the elements of a set, by the form.
#[inline(never)]
pub fn over(
    elements: &mut [u64; 1024],
    instruction: Instruction,
    scalar: u64,
    mask: u64,
    which: u64,
    n: usize,
) -> u64
    requires { Below instruction × (is_lane_work instruction.work ≡ true) × (n ≤ 64) }
    ensures { lanes elements.new result ≡ rising (of_ones (lane instruction scalar mask) which) 64 (lanes elements.old 0) }
{
    if instruction.scalar {
        let works = Lanes::<true> {
            instruction,
            scalar,
            mask,
            which,
            n,
        };
        return works.run(elements);
    }
    let works = Lanes::<false> {
        instruction,
        scalar,
        mask,
        which,
        n,
    };
    works.run(elements)
}
