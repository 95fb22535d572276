//! What a call of a reader or a writer of std comes to, and how often it is tried.
ghost use Rattle.std.specs.Prelude.{◌≡◌, ◌≢◌, ◌↔◌, ◌<◌, ◌≤◌, length, Ok, IfErr, IfOk, IsTrue, OnErr};
ghost use Rattle.std.specs.IoError.{error_kind};
ghost use Rattle.std.specs.Io.KnownBytes.{Keeps, ReadConsumes, WriteAppends};
ghost use Rattle.byte_ends.specs.Faults.{CountsFault, HandsOn};

use crate::ends::{Failed, fault};
use std::io;
use std::io::{ErrorKind, Read, Write};

/// How often a call is tried that is interrupted each time. After that it is a fault.
const TRIES: u32 = 64;

/// What a read comes to: an error is a fault.
pub(crate) fn settled_read(answered: io::Result<usize>, faults: &mut u64) -> Result<usize, Failed>
    ensures gave { IfOk answered (λ count. HandsOn count faults.old faults.new result) }
    ensures error { OnErr answered (CountsFault faults.old faults.new result) }
    ensures counted { faults.old ≤ faults.new }
{
    match answered {
        Ok(count) => Ok(count),
        Err(_) => Err(fault(faults)),
    }
}

/// What a write comes to: an error is a fault, and so is that no byte was taken of a piece that is
/// not empty.
pub(crate) fn settled_write(
    answered: io::Result<usize>,
    piece: &[u8],
    faults: &mut u64,
) -> Result<usize, Failed>
    ensures took { IfOk answered (λ count. 0 < count → HandsOn count faults.old faults.new result) }
    ensures empty { answered ≡ Ok 0 → length piece.now ≡ 0 →
        HandsOn 0 faults.old faults.new result }
    ensures nothing { answered ≡ Ok 0 → 0 < length piece.now →
        CountsFault faults.old faults.new result }
    ensures error { OnErr answered (CountsFault faults.old faults.new result) }
    ensures counted { faults.old ≤ faults.new }
{
    match answered {
        Ok(0) if !piece.is_empty() => Err(fault(faults)),
        answered => settled_read(answered, faults),
    }
}

/// A read, which is tried again where it is interrupted.
pub(crate) fn read_again<R: Read>(reader: &mut R, buffer: &mut [u8]) -> io::Result<usize>
    ensures within { IfOk result (λ count. count ≤ length buffer.old) }
    // Where the reader tells its bytes: it lost those it gave, and none by a call that failed.
    ensures passed { ReadConsumes (R.remaining reader.old) (R.remaining reader.new)
        result buffer.new }
    ensures retried { IfErr result (λ error. error_kind error ≢ ErrorKind.Interrupted) }
{
    'tries: for _ in 0..TRIES {
        match reader.read(buffer) {
            Err(error) if is_interruption(&error) => {}
            answered => return answered,
        }
    }
    Err(io::Error::from(ErrorKind::TimedOut))
}

/// A write, which is tried again where it is interrupted.
pub(crate) fn write_again<W: Write>(writer: &mut W, piece: &[u8]) -> io::Result<usize>
    ensures within { IfOk result (λ count. count ≤ length piece.now) }
    // Where the writer tells its bytes: it gained those it took, and none by a call that failed.
    ensures passed { WriteAppends (W.contents writer.old) (W.contents writer.new)
        result piece.now }
    ensures retried { IfErr result (λ error. error_kind error ≢ ErrorKind.Interrupted) }
{
    'tries: for _ in 0..TRIES {
        match writer.write(piece) {
            Err(error) if is_interruption(&error) => {}
            answered => return answered,
        }
    }
    Err(io::Error::from(ErrorKind::TimedOut))
}

/// A flush, which is tried again where it is interrupted.
pub(crate) fn flush_again<W: Write>(writer: &mut W) -> io::Result<()>
    ensures same { Keeps (W.contents writer.old) (W.contents writer.new) }
    ensures retried { IfErr result (λ error. error_kind error ≢ ErrorKind.Interrupted) }
{
    'tries: for _ in 0..TRIES {
        match writer.flush() {
            Err(error) if is_interruption(&error) => {}
            answered => return answered,
        }
    }
    Err(io::Error::from(ErrorKind::TimedOut))
}

fn is_interruption(error: &io::Error) -> bool
    ensures { IsTrue result ↔ (error_kind error.now ≡ ErrorKind.Interrupted) }
{
    error.kind() == ErrorKind::Interrupted
}
