//! Runs over memory, and what they come to.
ghost use Rattle.std.specs.Prelude.{◌≤◌};

use heap_run::{Ended, MemSink, MemSource, OpenGate, run};
use std::alloc::Global;
use std::test::Fail;
use std::thread::Threads;

/// How a source gives and a sink takes: so many bytes a call, and the calls of these numbers fail; 0 is
/// none.
#[derive(Clone, Copy)]
pub(crate) struct Pace {
    pub(crate) most: usize,
    pub(crate) failing_read: u64,
    pub(crate) failing_write: u64,
}

/// Pace at which nothing fails.
pub(crate) const SURE: Pace = Pace {
    most: 4096,
    failing_read: 0,
    failing_write: 0,
};

/// What a run came to, as plain data: its status, what its sink took, and of the heap that it kept, if it
/// did, the executed lines with the line that stopped it and the words that this line needed, the pages,
/// young words, helpers and variables, the used words of eden, those of the survivors, and all words.
#[derive(Drop)]
pub(crate) struct RunSeen {
    pub(crate) status: u8,
    pub(crate) written: Vec<u8>,
    pub(crate) counts: String,
    pub(crate) sizes: String,
    pub(crate) used: usize,
    pub(crate) survivors: usize,
    pub(crate) words: Vec<u64>,
}

/// Runs a script under words. These have blanks between, and its lines `; `.
pub(crate) fn came<R: Threads + Sync + AllocGlobal>(
    rt: &R,
    given: &str,
    lines: &str,
    ends: Pace,
) -> Result<RunSeen, Fail>
    requires { 1 ≤ ends.most }
{
    let alloc = rt.alloc();
    let mut words = Vec::new(alloc);
    for word in given.split(' ') {
        words.push(String::from_str(alloc, word)?)?;
    }
    let script = lines.replace(alloc, "; ", "\n")?.into_bytes();
    let mut source = MemSource::new(script, ends.most, vec![in alloc; ends.failing_read]?);
    let failing = vec![in alloc; ends.failing_write]?;
    let mut sink = MemSink::new(alloc, 1 << 20, ends.most, failing)?;
    let ended = run(rt, alloc, &words, &mut source, &mut sink, &OpenGate);
    seen_of(alloc, &ended, sink.bytes())
}

/// What is seen of an end, with what the sink took.
fn seen_of(alloc: Global, ended: &Ended, written: &[u8]) -> Result<RunSeen, Fail> {
    let mut seen = RunSeen {
        status: ended.status,
        written: written.to_vec(alloc)?,
        counts: String::new(alloc),
        sizes: String::new(alloc),
        used: 0,
        survivors: 0,
        words: Vec::new(alloc),
    };
    if let Some(kept) = &ended.kept {
        let (image, sizes) = (&kept.image, kept.image.regions.sizes());
        let variables = image.regions.variables();
        seen.counts = format!(in alloc; "{} {} {}", kept.executed, kept.line, kept.need)?;
        seen.sizes = format!(in alloc;
            "{} {} {} {variables}",
            sizes.pages, sizes.young, sizes.helpers
        )?;
        seen.used = image.used as usize;
        seen.survivors = image.survivors as usize;
        seen.words = image.words.as_slice().to_vec(alloc)?;
    }
    Ok(seen)
}
