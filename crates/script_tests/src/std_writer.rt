//! A writer of std as a sink: what each of its answers comes to, and in which order it is asked.

use crate::traces::{LETTERS, check_writes};
use byte_ends::{StdSink, write_all};
use std::io;
use std::io::{ErrorKind, Write};
use std::test::Fail;

/// A writer that does what stands in its plans, a byte for each call: `!` is an error, `~` an interruption, and a
/// digit takes so many bytes. Behind a plan's end all is taken or handed on. It keeps a log of what it took, with `|`
/// for each flush and `!` for each error.
#[derive(Drop)]
struct Planned<'p> {
    writes: &'p [u8],
    flushes: &'p [u8],
    log: Vec<u8>,
}

/// The next byte of a plan.
fn next<'p>(plan: &mut &'p [u8]) -> Option<u8> {
    match *plan {
        [first, rest @ ..] => {
            *plan = rest;
            Some(*first)
        }
        [] => None,
    }
}

impl<'p> Write for Planned<'p> {
    fn write(&mut self, buf: &[u8]) -> io::Result<usize> {
        let most = match next(&mut self.writes) {
            Some(b'~') => return Err(io::Error::from(ErrorKind::Interrupted)),
            Some(b'!') => {
                self.log.push(b'!')?;
                return Err(io::Error::from(ErrorKind::Other));
            }
            Some(digit) => usize::from(digit.saturating_sub(b'0')),
            None => buf.len(),
        };
        let count = most.min(buf.len());
        self.log.extend_from_slice(&buf[..count])?;
        Ok(count)
    }

    fn flush(&mut self) -> io::Result<()> {
        match next(&mut self.flushes) {
            Some(b'~') => Err(io::Error::from(ErrorKind::Interrupted)),
            Some(b'!') => {
                self.log.push(b'!')?;
                Err(io::Error::from(ErrorKind::Other))
            }
            _ => {
                self.log.push(b'|')?;
                Ok(())
            }
        }
    }
}

const SOON: &[u8] = b"~~~~~~~~~~~~~~~~~~~~~~~~~~~~~~~~~~~~~~~~~~~~~~~~~~~~~~~~~~~~~~~";

const LATE: &[u8] = b"~~~~~~~~~~~~~~~~~~~~~~~~~~~~~~~~~~~~~~~~~~~~~~~~~~~~~~~~~~~~~~~~";

/// The plans of the writer, what the sink says, and the writer's log. The front of the log up to the first error is
/// what `write_all` leaves.
#[test]
fn each_error_of_a_writer_is_a_fault_and_what_it_took_is_handed_on(
    rt: HostRuntime,
) -> Result<(), Fail> {
    let alloc = rt.alloc();
    let rows: [(&[u8], &[u8], &str, &str); 12] = [
        (b"", b"", "abcdefgh", "abcdefgh|"),
        (b"111", b"", "abcdefgh", "a|b|c|defgh|"),
        (b"7", b"", "abcdefgh", "abcdefg|h|"),
        (b"~3~~2", b"~", "abcdefgh", "abc|de|fgh|"),
        (SOON, b"", "abcdefgh", "abcdefgh|"),
        (LATE, b"", "!abcdefgh", "abcdefgh|"),
        (b"3", SOON, "abcdefgh", "abc|defgh|"),
        (b"3", LATE, "!abcdefgh", "abcabcdefgh|"),
        (b"30", b"", "abc!defgh", "abc||defgh|"),
        (b"!", b"", "!abcdefgh", "!abcdefgh|"),
        (b"3!!3", b"", "abc!!defgh", "abc|!!def|gh|"),
        (b"3", b"!", "!abcdefgh", "abc!abcdefgh|"),
    ];
    for (writes, flushes, wanted, log) in rows {
        let mut writer = Planned {
            writes,
            flushes,
            log: Vec::new(alloc),
        };
        check_writes(&rt, alloc, &mut StdSink::new(&mut writer), wanted)?;
        assert_eq!(rt; writer.log.as_slice(), log.as_bytes());
    }
    Ok(())
}

#[test]
fn a_write_that_fails_ends_the_writing_of_a_piece(rt: HostRuntime) -> Result<(), Fail> {
    let rows: [(&[u8], &[u8], bool, &str); 5] = [
        (b"3~1", b"", true, "abc|d|efgh|"),
        (b"!", b"", false, "!"),
        (b"3!", b"", false, "abc|!"),
        (b"31", b"|!", false, "abc|d!"),
        (b"30", b"", false, "abc||"),
    ];
    for (writes, flushes, is_written, log) in rows {
        let mut writer = Planned {
            writes,
            flushes,
            log: Vec::new(rt.alloc()),
        };
        let written = write_all(&mut StdSink::new(&mut writer), LETTERS);
        assert_eq!(rt; written.is_ok(), is_written, "{log}");
        assert_eq!(rt; writer.log.as_slice(), log.as_bytes());
    }
    Ok(())
}
