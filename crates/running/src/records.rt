// The instruction records, one after another.
ghost use Rattle.std.specs.Prelude.{◌≡◌, ◌*◌, ◌≤◌, length};
ghost use Rattle.std.specs.List.{list_all};
ghost use Rattle.running.specs.Records.{opcode_at, control_word_at, scalar_at, unfilled, well_formed};
ghost use Rattle.running.specs.Working.{filled};

use crate::record;
use crate::record::RECORD_SIZE;

// The filler bytes of each record are zero.
fn all_unfilled(records: &[[u8; RECORD_SIZE]]) -> bool
    ensures { result ≡ list_all unfilled records.now }
{
    records.iter().all(record::unfilled)
}

// The bytes are at most 16 whole records with their filler bytes zero.
pub(crate) fn well_formed(bytes: &[u8]) -> bool
    ensures { result ≡ well_formed bytes.now }
{
    let (records, _) = bytes.as_chunks();
    (bytes.len() <= 256) & (bytes.len() % RECORD_SIZE == 0) & all_unfilled(records)
}

// Writes the parts of the first n records.
pub(crate) fn take_apart(
    bytes: &[u8],
    n: usize,
    opcodes: &mut [u8; 16],
    cntrls: &mut [u16; 16],
    scalars: &mut [u64; 16],
)
    requires { (n ≤ 16) × (n * 16 ≤ length bytes.now) }
    ensures { (opcodes.new ≡ filled n (opcode_at bytes.now) opcodes.old) × (cntrls.new ≡ filled n (control_word_at bytes.now) cntrls.old) × (scalars.new ≡ filled n (scalar_at bytes.now) scalars.old) }
{
    let (records, _) = bytes.as_chunks();
    for (k, record) in records[..n].iter().enumerate() {
        opcodes[k] = record::opcode(record);
        cntrls[k] = record::control_word(record);
        scalars[k] = record::scalar(record);
    }
}
