//! Sources and sinks that fail, and other ends than those of memory.

use crate::runs::{Pace, SURE, came};
use heap_run::{MemSink, OpenGate, StdSink, StdSource, SureSource, Tally, run, run_without_words};
use std::alloc::Global;
use std::process::Abort;
use std::test::Fail;
use std::thread::Threads;

/// It has 35 bytes: in pieces of 8 the fifth read gives the last ones, and the sixth finds the end.
const FIRST: &str = "new x 2; set x a 5; get y x a; print y";

#[test]
fn each_read_that_fails_is_a_read_fault(rt: HostRuntime) -> Result<(), Fail> {
    for failing_read in 1..=7 {
        let ends = Pace {
            most: 8,
            failing_read,
            ..SURE
        };
        let seen = came(&rt, "run", FIRST, ends)?;
        let (text, counts) = if failing_read < 7 {
            ("read fault\n", "")
        } else {
            ("5\n", "4 0 0")
        };
        assert_eq!(rt;
            seen.written.as_slice(),
            text.as_bytes(),
            "call {failing_read}"
        );
        assert_eq!(rt; seen.counts.as_str(), counts, "call {failing_read}");
    }
    Ok(())
}

/// Checks that a sink, which takes so many bytes a call and fails at the call of this number, has a front
/// of so many bytes, and what the kept heap counts.
fn check_front<R: Abort + Threads + Sync + AllocGlobal>(
    rt: &R,
    script: &str,
    (most, failing_write): (usize, u64),
    (front, counts): (usize, &str),
) -> Result<(), Fail> {
    assert!(rt; most > 0);
    let whole = came(rt, "run", script, SURE)?.written;
    let ends = Pace {
        most,
        failing_write,
        ..SURE
    };
    let seen = came(rt, "run", script, ends)?;
    assert_eq!(rt; seen.status, 5, "{script} {failing_write}");
    assert_eq!(rt;
        Some(seen.written.as_slice()),
        whole.get(..front),
        "{script} {failing_write}"
    );
    assert_eq!(rt; seen.counts.as_str(), counts, "{script} {failing_write}");
    Ok(())
}

#[test]
fn each_write_that_fails_leaves_the_front_of_the_output(rt: HostRuntime) -> Result<(), Fail> {
    let fault = "print 1; print 2; get y q f";
    let fronts = [0usize, 4, 8, 12, 16];
    for (before, front) in fronts.iter().enumerate() {
        let call = (4, before as u64 + 1);
        check_front(&rt, fault, call, (*front, "2 3 0"))?;
    }
    check_front(&rt, "print 5; print 6", (2, 2), (2, "2 0 0"))?;
    check_front(
        &rt,
        "let p undefined; repeat 20000; new x 7; set x n p; let p x; end",
        (4096, 1),
        (0, "55502 3 10"),
    )?;
    // At the fourth call the last bytes are handed on, behind the fault.
    let long = "repeat 20000; print 123456789; end; get y q f";
    let fronts = [
        (0, "12290 0 0"),
        (61_450, "24580 0 0"),
        (122_900, "36870 0 0"),
        (184_350, "40001 4 0"),
    ];
    for (before, wanted) in fronts.iter().enumerate() {
        check_front(&rt, long, (1 << 20, before as u64 + 1), *wanted)?;
    }
    Ok(())
}

#[test]
fn a_last_line_is_written_in_one_call(rt: HostRuntime) -> Result<(), Fail> {
    // The first call hands on what the commands have written, and the second has the whole last line.
    for (failing_write, status) in [(2, 5), (3, 1)] {
        let ends = Pace {
            failing_write,
            ..SURE
        };
        let seen = came(&rt, "run", "print 1; print 2; get y q f", ends)?;
        assert_eq!(rt; seen.status, status, "call {failing_write}");
    }
    Ok(())
}

/// The words of the command line that run a script.
fn run_words(alloc: Global) -> Result<Vec<String>, Fail> {
    Ok(vec![in alloc; String::from_str(alloc, "run")?]?)
}

#[test]
fn standard_ends_serve(rt: HostRuntime) -> Result<(), Fail> {
    let alloc = rt.alloc();
    let words = run_words(alloc)?;
    let mut written = Vec::new(alloc);
    let mut source = StdSource::new(b"new x 2\nset x a 5\nget y x a\nprint y\n".as_slice());
    let mut sink = StdSink::new(&mut written);
    let status = run(&rt, alloc, &words, &mut source, &mut sink, &OpenGate).status;
    drop(sink);
    assert_eq!(rt; status, 0);
    assert_eq!(rt; written.as_slice(), b"5\n".as_slice());
    Ok(())
}

#[test]
fn ends_that_never_fail_serve(rt: HostRuntime) -> Result<(), Fail> {
    let alloc = rt.alloc();
    let words = run_words(alloc)?;
    let mut source = SureSource::new(b"print 5\nprint 6".to_vec(alloc)?);
    let mut tally = Tally::new();
    let status = run(&rt, alloc, &words, &mut source, &mut tally, &OpenGate).status;
    // The bytes are those of `5`, `6` and two line feeds.
    assert_eq!(rt; (status, tally.bytes(), tally.sum()), (0, 4, 53 + 54 + 20));
    Ok(())
}

#[test]
fn no_memory_is_written_where_there_are_no_words(rt: HostRuntime) -> Result<(), Fail> {
    let alloc = rt.alloc();
    let mut sink = MemSink::new(alloc, 64, 64, Vec::new(alloc))?;
    assert_eq!(rt; run_without_words(&mut sink).status, 7);
    assert_eq!(rt; sink.bytes(), b"no memory\n".as_slice());
    // A sink that takes nothing ends a run under refused words with 5, and no heap is kept.
    let ends = Pace {
        failing_write: 1,
        ..SURE
    };
    let seen = came(&rt, "walk", FIRST, ends)?;
    assert_eq!(rt;
        (seen.status, seen.written.len(), seen.words.len()),
        (5, 0, 0)
    );
    Ok(())
}
