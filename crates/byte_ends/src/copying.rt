//! Giving bytes into a buffer.
ghost use Rattle.std.specs.Prelude.{◌≡◌, length, min, take};

/// Gives the first bytes into the front of the buffer, as many as there are and as fit, but at most
/// so many, and answers how many.
pub(crate) fn give_front(bytes: &[u8], most: usize, buffer: &mut [u8]) -> usize
    ensures count { result ≡ min (min most (length buffer.old)) (length bytes.now) }
    ensures given { take result buffer.new ≡ take result bytes.now }
{
    let count = most.min(buffer.len()).min(bytes.len());
    buffer[..count].copy_from_slice(&bytes[..count]);
    count
}
