// One instruction record of 16 bytes.
ghost use Rattle.std.specs.Prelude.{◌≡◌};
ghost use Rattle.running.specs.Records.{opcode_in, control_word_in, scalar_in, unfilled as unfilled_in};

// The bytes of a record.
pub(crate) const RECORD_SIZE: usize = 16;

pub(crate) fn opcode(record: &[u8; RECORD_SIZE]) -> u8
    ensures { result ≡ opcode_in record.now }
{
    record[0]
}

pub(crate) fn control_word(record: &[u8; RECORD_SIZE]) -> u16
    ensures { result ≡ control_word_in record.now }
{
    numbers::bytes::word(&record[2..4])
}

pub(crate) fn scalar(record: &[u8; RECORD_SIZE]) -> u64
    ensures { result ≡ scalar_in record.now }
{
    numbers::bytes::quadword(&record[8..])
}

// The filler bytes are zero.
pub(crate) fn unfilled(record: &[u8; RECORD_SIZE]) -> bool
    ensures { result ≡ unfilled_in record.now }
{
    (record[1] == 0) & (record[4..8] == [0; 4])
}
