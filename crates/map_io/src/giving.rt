//! How a source in memory gives its bytes.
ghost use Rattle.std.specs.Prelude.{◌≡◌, min, length, take};

// Copies the front of what is left into the front of a buffer, as far as there is room and at most that many bytes.
pub(crate) fn give(left: &[u8], most: usize, buf: &mut [u8]) -> usize
    ensures count { result ≡ min most (min (length buf.old) (length left.now)) }
    ensures bytes { take result buf.new ≡ take result left.now }
{
    let count = most.min(buf.len()).min(left.len());
    buf[..count].copy_from_slice(&left[..count]);
    count
}
