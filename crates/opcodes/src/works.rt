// The works, and what the layers above ask of one: each answer is its row's (specs/Works.antt).
#![tactic(auto, unfolding(crate::specs::Works::row_of))]

ghost use Rattle.std.specs.Prelude.{◌≡◌, false, not, eqb};
ghost use Rattle.opcodes.specs.Working.{work_of};
ghost use Rattle.opcodes.specs.Works.{row_of, reads, is_mask_bit, is_counted, is_move, is_load, is_store, size_of};

// What an instruction does.
#[derive(Clone, Copy, PartialEq, Eq)]
pub enum Work {
    // No opcode has it; it leaves its element as it was.
    NoWork,
    AddLongword,
    SubtractLongword,
    MultiplyLongword,
    CompareLongword,
    BitSet,
    ExclusiveOr,
    BitClear,
    ShiftRight,
    ShiftLeft,
    AddF,
    SubtractF,
    MultiplyF,
    CompareF,
    Convert,
    Iota,
    Merge,
    LoadLongword,
    LoadQuadword,
    StoreLongword,
    StoreQuadword,
    DivideF,
}

// What the control word holds beside registers: nothing; a relation in <2:0>, where <3> is ignored or refused; or a conversion in <11:8>.
#[derive(Clone, Copy)]
pub enum Holds {
    Registers,
    Relation,
    RelationAlone,
    Conversion,
}

impl Work {
    // The work of a number: its place among the cases. One past the last is none's.
    #[tactic(auto, unfolding(crate::specs::Working::work_of))]
    pub fn numbered(number: u8) -> Work
        ensures { result ≡ work_of number }
    {
        match number {
            1 => Work::AddLongword,
            2 => Work::SubtractLongword,
            3 => Work::MultiplyLongword,
            4 => Work::CompareLongword,
            5 => Work::BitSet,
            6 => Work::ExclusiveOr,
            7 => Work::BitClear,
            8 => Work::ShiftRight,
            9 => Work::ShiftLeft,
            10 => Work::AddF,
            11 => Work::SubtractF,
            12 => Work::MultiplyF,
            13 => Work::CompareF,
            14 => Work::Convert,
            15 => Work::Iota,
            16 => Work::Merge,
            17 => Work::LoadLongword,
            18 => Work::LoadQuadword,
            19 => Work::StoreLongword,
            20 => Work::StoreQuadword,
            21 => Work::DivideF,
            _ => Work::NoWork,
        }
    }

    // It loads or stores.
    pub fn is_memory(self) -> bool
        ensures { result ≡ is_move (row_of self).moves }
    {
        self.is_load() | self.is_store()
    }

    // It loads.
    pub fn is_load(self) -> bool
        ensures { result ≡ is_load (row_of self).moves }
    {
        matches!(self, Work::LoadLongword | Work::LoadQuadword)
    }

    // It stores.
    pub fn is_store(self) -> bool
        ensures { result ≡ is_store (row_of self).moves }
    {
        matches!(self, Work::StoreLongword | Work::StoreQuadword)
    }

    // Its elements are eight bytes; those of any other memory work are four.
    pub fn is_quadword(self) -> bool
        ensures { result ≡ eqb (size_of (row_of self).moves) 8 }
    {
        matches!(self, Work::LoadQuadword | Work::StoreQuadword)
    }

    // It writes mask bits.
    pub fn writes_mask(self) -> bool
        ensures { result ≡ is_mask_bit (row_of self).writes }
    {
        matches!(self, Work::CompareLongword | Work::CompareF)
    }

    // It is one step for all elements.
    pub fn in_one_step(self) -> bool
        ensures { result ≡ is_counted (row_of self).writes }
    {
        matches!(self, Work::Iota)
    }

    // It operates on elements whatever MOE says.
    pub fn ignores_moe(self) -> bool
        ensures { result ≡ not (row_of self).obeys_moe }
    {
        matches!(self, Work::Iota | Work::Merge)
    }

    // What its control word holds beside registers.
    pub fn holds(self) -> Holds
        ensures { result ≡ (row_of self).holds }
    {
        match self {
            Work::CompareLongword => Holds::Relation,
            Work::CompareF => Holds::RelationAlone,
            Work::Convert => Holds::Conversion,
            _ => Holds::Registers,
        }
    }

    // The form of a work that is none of memory reads Va.
    pub fn reads_va(self, scalar: bool) -> bool
        requires { is_move (row_of self).moves ≡ false }
        ensures { result ≡ reads (row_of self).va scalar }
    {
        !(scalar | matches!(self, Work::Convert | Work::Iota))
    }

    // A work that is none of memory reads Vb, in either form.
    pub fn reads_vb(self, scalar: bool) -> bool
        requires { is_move (row_of self).moves ≡ false }
        ensures { result ≡ reads (row_of self).vb scalar }
    {
        !matches!(self, Work::Iota)
    }
}
