// One record of 16 bytes.
ghost use Rattle.std.specs.Prelude.{◌≡◌, ◌<◌, take};
ghost use Rattle.numbers.specs.Bytes.{number_of};
ghost use Rattle.saved.specs.File.{record_bytes};
ghost use Rattle.saved.specs.Load.{contents_in, contents_in_range, good_part};

// The bytes of a record.
pub(crate) const RECORD_SIZE: usize = 16;

// The elements come first, each register's contents in a record, and then the control registers.
pub(crate) const VLR: usize = 1024;

pub(crate) const VMR: usize = 1025;

pub(crate) const VCR: usize = 1026;

pub(crate) const VAER: usize = 1027;

pub(crate) const VPSR: usize = 1028;

// The bytes of a record. Those between its number and its contents are zero.
#[tactic(auto, unfolding(crate::specs::File::record_bytes))]
pub(crate) fn bytes(number: u16, contents: u64) -> [u8; RECORD_SIZE]
    ensures { result ≡ record_bytes number contents }
{
    let mut record = [0; RECORD_SIZE];
    record[..2].copy_from_slice(&number.to_le_bytes());
    record[8..].copy_from_slice(&contents.to_le_bytes());
    record
}

// The eight bytes that a record begins with, its number and the filler, as one number.
fn head(record: &[u8; RECORD_SIZE]) -> u64
    ensures { result ≡ number_of (take 8 record.now) }
{
    numbers::bytes::quadword(&record[..8])
}

// The contents of a record.
#[tactic(auto, using(crate::proofs::Parts::contents_bytes))]
pub(crate) fn contents(record: &[u8; RECORD_SIZE]) -> u64
    ensures { result ≡ contents_in record.now }
{
    numbers::bytes::quadword(&record[8..])
}

// Record k may hold v.
#[tactic(auto, unfolding(crate::specs::Load::contents_in_range))]
fn in_range(k: usize, v: u64) -> bool
    ensures { result ≡ contents_in_range k v }
{
    if k < VLR {
        return true;
    }
    match k {
        VLR | VCR => state::length_in_range(v),
        VMR => true,
        VAER => state::vaer_in_range(v),
        _ => state::vpsr_in_range(v),
    }
}

// The 16 bytes are a record k. Its number and the zeros after it are compared at once.
#[tactic(auto, using(crate::proofs::Parts::parts))]
pub(crate) fn good(record: &[u8; RECORD_SIZE], k: usize) -> bool
    requires { k < 65536 }
    ensures { result ≡ good_part record.now k }
{
    (head(record) == k as u64) & in_range(k, contents(record))
}
