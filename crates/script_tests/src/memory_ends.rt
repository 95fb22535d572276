//! The ends in memory, and those that never fail, through the bounds that their callers have.

use crate::traces::{LETTERS, check_reads, check_writes};
use byte_ends::{MemSink, MemSource, SureSource, Tally, write_all};
use std::test::Fail;

const LINE: &[u8] = b"objects 14 entries 0\n";

#[test]
fn a_source_in_memory_gives_all_but_at_the_calls_that_are_to_fail(
    rt: HostRuntime,
) -> Result<(), Fail> {
    let failing = [2, 4].to_vec(rt.alloc())?;
    let mut source = MemSource::new(LETTERS.to_vec(rt.alloc())?, 3, failing);
    check_reads(&rt, rt.alloc(), &mut source, 8, "abc!def!gh.")?;
    assert_eq!(rt; source.left().len(), 0);
    Ok(())
}

#[test]
fn a_sink_in_memory_takes_all_but_at_the_calls_that_are_to_fail(
    rt: HostRuntime,
) -> Result<(), Fail> {
    let failing = [2, 4].to_vec(rt.alloc())?;
    let mut sink = MemSink::new(rt.alloc(), 8, 3, failing)?;
    check_writes(&rt, rt.alloc(), &mut sink, "abc!def!gh")?;
    assert_eq!(rt; sink.bytes(), LETTERS);
    assert!(rt; write_all(&mut sink, b"i").is_err());
    Ok(())
}

#[test]
fn a_line_that_a_sure_source_gives_is_tallied(rt: HostRuntime) -> Result<(), Fail> {
    let mut source = SureSource::new(LINE.to_vec(rt.alloc())?);
    check_reads(&rt, rt.alloc(), &mut source, 8, "objects 14 entries 0\n.")?;
    let mut tally = Tally::new();
    assert!(rt; write_all(&mut tally, LINE).is_ok());
    assert_eq!(rt; (tally.bytes(), tally.sum()), (21, 1763));
    Ok(())
}
