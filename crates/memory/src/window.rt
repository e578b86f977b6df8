// The window: whether it is allowed, and what is written into it.
ghost use Rattle.std.specs.Prelude.{◌≡◌, length};
ghost use Rattle.numbers.specs.Bytes.{bytes_of};
ghost use Rattle.memory.specs.Window.{allowed as allowed_of};

// A window of so many bytes may stand at an origin.
#[tactic(auto, unfolding(crate::specs::Window::allowed))]
pub(crate) fn allowed(bytes: u64, origin: u64) -> bool
    ensures { result ≡ allowed_of bytes origin }
{
    if bytes > 65536 {
        return false;
    }
    (origin % 8 == 0) & (origin <= 4294967296 - bytes)
}

// Writes a longword, the low half of v, into four bytes.
pub(crate) fn put_longword(part: &mut [u8], v: u64)
    requires { length part.old ≡ 4 }
    ensures { part.new ≡ bytes_of 4 v }
{
    part.copy_from_slice(&(numbers::halves::low(v) as u32).to_le_bytes());
}

// Writes a quadword into eight bytes.
pub(crate) fn put_quadword(part: &mut [u8], v: u64)
    requires { length part.old ≡ 8 }
    ensures { part.new ≡ bytes_of 8 v }
{
    part.copy_from_slice(&v.to_le_bytes());
}
