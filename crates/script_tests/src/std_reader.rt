//! A reader of std as a source: what each of its answers comes to.

use crate::traces::{LETTERS, check_reads};
use byte_ends::StdSource;
use std::io;
use std::io::{ErrorKind, Read};
use std::test::Fail;

/// A reader that is interrupted so often first, and then gives the letters, at most so many a call. The calls with
/// these numbers, counted from 1 behind the interruptions, fail.
#[derive(Drop)]
struct Hindered<'p> {
    interruptions: u32,
    most: usize,
    failing: &'p [u32],
    calls: u32,
    at: usize,
}

impl<'p> Read for Hindered<'p> {
    fn read(&mut self, buf: &mut [u8]) -> io::Result<usize> {
        if self.interruptions > 0 {
            self.interruptions -= 1;
            return Err(io::Error::from(ErrorKind::Interrupted));
        }
        self.calls = self.calls.saturating_add(1);
        if self.failing.contains(&self.calls) {
            return Err(io::Error::from(ErrorKind::Other));
        }
        let left = &LETTERS[self.at.min(LETTERS.len())..];
        let count = left.len().min(buf.len()).min(self.most);
        buf[..count].copy_from_slice(&left[..count]);
        self.at = self.at.saturating_add(count);
        Ok(count)
    }
}

/// The room of the buffer, the most bytes a call, interruptions, the calls that fail, and what comes of it.
#[test]
fn each_error_of_a_reader_is_a_fault_and_nothing_else_is(rt: HostRuntime) -> Result<(), Fail> {
    let rows: [(usize, usize, u32, &[u32], &str); 15] = [
        (8, 8, 0, &[], "abcdefgh."),
        (7, 8, 0, &[], "abcdefgh."),
        (3, 8, 0, &[], "abcdefgh."),
        (1, 8, 0, &[], "abcdefgh."),
        (8, 7, 0, &[], "abcdefgh."),
        (8, 1, 0, &[], "abcdefgh."),
        (8, 8, 0, &[1], "!abcdefgh."),
        (8, 8, 0, &[2], "abcdefgh!."),
        (8, 3, 0, &[2], "abc!defgh."),
        (2, 8, 0, &[1, 2, 4], "!!ab!cdefgh."),
        (8, 3, 0, &[4], "abcdefgh!."),
        (8, 3, 1, &[], "abcdefgh."),
        (8, 3, 1, &[1], "!abcdefgh."),
        (8, 3, 63, &[], "abcdefgh."),
        (8, 3, 64, &[], "!abcdefgh."),
    ];
    for (room, most, interruptions, failing, wanted) in rows {
        let reader = Hindered {
            interruptions,
            most,
            failing,
            calls: 0,
            at: 0,
        };
        check_reads(&rt, rt.alloc(), &mut StdSource::new(reader), room, wanted)?;
    }
    Ok(())
}
