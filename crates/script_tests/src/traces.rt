//! What the calls of an end come to, one behind the other: the bytes, `!` for each failure and `.` at the end of a
//! source.

use byte_ends::{Failed, Sink, Source};
use std::alloc::{AllocError, Global};
use std::process::Abort;

pub(crate) const LETTERS: &[u8] = b"abcdefgh";

/// Checks what a source gives into a buffer of so many bytes, at most 8, until it ends. It is asked again after a
/// failure.
pub(crate) fn check_reads<S: Source>(
    rt: &impl Abort,
    alloc: Global,
    source: &mut S,
    room: usize,
    wanted: &str,
) -> Result<(), AllocError> {
    let mut trace = Vec::new(alloc);
    let mut buffer = [0; 8];
    for _turn in 0..20 {
        match source.read(&mut buffer[..room.min(8)]) {
            Ok(0) => {
                trace.push(b'.')?;
                break;
            }
            Ok(count) => trace.extend_from_slice(&buffer[..count])?,
            Err(Failed) => trace.push(b'!')?,
        }
    }
    assert_eq!(rt; trace.as_slice(), wanted.as_bytes(), "{wanted}");
    Ok(())
}

/// Checks what a sink says that it takes of the letters. What is left is given to it again after a failure.
pub(crate) fn check_writes<K: Sink>(
    rt: &impl Abort,
    alloc: Global,
    sink: &mut K,
    wanted: &str,
) -> Result<(), AllocError> {
    let mut trace = Vec::new(alloc);
    let mut at = 0;
    for _turn in 0..20 {
        if at >= LETTERS.len() {
            break;
        }
        let piece = &LETTERS[at..];
        match sink.write(piece) {
            Ok(count) => {
                trace.extend_from_slice(&piece[..count])?;
                at += count;
            }
            Err(Failed) => trace.push(b'!')?,
        }
    }
    assert_eq!(rt; trace.as_slice(), wanted.as_bytes(), "{wanted}");
    Ok(())
}
