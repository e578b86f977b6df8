// Little-endian bytes.
ghost use Rattle.std.specs.Prelude.{◌≡◌, length};
ghost use Rattle.numbers.specs.Bytes.{number_of};

// The word in two bytes.
pub fn word(part: &[u8]) -> u16
    requires { length part.now ≡ 2 }
    ensures { result ≡ number_of part.now }
{
    u16::from_le_bytes(part.try_into().unwrap())
}

// The longword in four bytes.
pub fn longword(part: &[u8]) -> u32
    requires { length part.now ≡ 4 }
    ensures { result ≡ number_of part.now }
{
    u32::from_le_bytes(part.try_into().unwrap())
}

// The quadword in eight bytes.
pub fn quadword(part: &[u8]) -> u64
    requires { length part.now ≡ 8 }
    ensures { result ≡ number_of part.now }
{
    u64::from_le_bytes(part.try_into().unwrap())
}
