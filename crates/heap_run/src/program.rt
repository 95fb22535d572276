//! The program as one call. Its last line stands in `last_line`, the run of a script in `heap_script`.
ghost use Rattle.std.specs.Prelude.{◌≡◌, ◌≢◌, ℕ, Bool, List, map, length, string_bytes};
ghost use Rattle.std.specs.Prelude.{None, Ok};
ghost use Rattle.script_text.specs.Grammar.{reading};
ghost use Rattle.page_space.specs.Sizes.{AreWithin};
ghost use Rattle.byte_ends.specs.Faults.{Rose};
ghost use Rattle.byte_ends.specs.Sink.{Appends, AppendsSome};
ghost use Rattle.heap_script.specs.Runs.{IsCut};
ghost use Rattle.heap_run.specs.Texts.{last_bytes, status_of, sink_fault_status};
ghost use Rattle.heap_run.specs.Opening.{inspects_for, IsReady};
ghost use Rattle.command_line.specs.Invocations.{asked_run};
ghost use Rattle.heap_run.specs.Answers.{Answers, Runs, AsksFor, Taken};
ghost use Rattle.heap_run.specs.Answers.{input_of, last_line_of, unopened};

use crate::ended::{Ended, keep};
use crate::generated::write_generated;
use crate::last_line::{LastLine, SINK_FAULT};
use crate::opened::{Inspects, Opened, Ran};
use crate::soaking::soak;
use crate::source_bytes::{ReadStop, read_source};
use byte_ends::{Sink, Source};
use command_line::{Invocation, WordsStop, read_words};
use crew::Gate;
use heap_script::{Finished, How};
use page_space::Sizes;
use script_text::{Script, parse};
use std::alloc::Global;
use std::thread::Threads;

/// Runs the program. `words` are the words of the command line without the program's name, `source`
/// is the script, and `sink` takes what it writes and the last line. The heap has the sizes that the
/// words give; threads and gates are not used. Where the words ask for a check, the heap is judged
/// after each line for which it was fully collected, and once more at the script's end, with what is
/// left counted. Where they ask for a generated script, `sink` takes that, nothing is read, and there is
/// no heap. Where they ask for a soak, a generated script is run, and `sink` takes the sums of what it
/// tells, and nothing is read.
///
/// Where a heap is kept, it shows the graph after the executed lines, whatever became of the bytes.
pub fn run<S: Source, K: Sink, G: Gate, R: Threads + Sync>(
    rt: &R,
    alloc: Global,
    words: &[String],
    source: &mut S,
    sink: &mut K,
    gate: &G,
) -> Ended
    ensures answers { Answers (map string_bytes words.now)
        (input_of (S.left source.old) (S.left source.new) (S.faults source.old) (S.faults source.new))
        (K.HasTaken sink.old) (K.HasTaken sink.new) (K.faults sink.old) (K.faults sink.new) result }
{
    match read_words(alloc, words) {
        Ok(Invocation::Run(sizes)) => {
            run_read(rt, alloc, Inspects::Nothing, sizes, source, sink, gate)
        }
        Ok(Invocation::Check(sizes)) => {
            run_read(rt, alloc, Inspects::Checks, sizes, source, sink, gate)
        }
        Ok(Invocation::Gen { seed, forms }) => write_generated(alloc, seed, forms, sink),
        Ok(Invocation::Soak { sizes, seed, forms }) => soak(
            rt, alloc, sizes, seed, forms, sink, gate,
        ),
        Err(WordsStop::BadWords) => give_up(sink, LastLine::BadWords),
        Err(WordsStop::NoMemory) => give_up(sink, LastLine::NoMemory),
    }
}

/// What a run ends with where memory was refused before there were words to give it.
pub fn run_without_words<K: Sink>(sink: &mut K) -> Ended
    ensures unopened { result.kept ≡ None }
    ensures taken { Taken (K.HasTaken sink.old) (K.HasTaken sink.new)
        (K.faults sink.old) (K.faults sink.new) (unopened LastLine.NoMemory) result.status }
{
    give_up(sink, LastLine::NoMemory)
}

/// Reads a source, and runs it as a script on a heap that is inspected so.
fn run_read<S: Source, K: Sink, G: Gate, R: Threads + Sync>(
    rt: &R,
    alloc: Global,
    inspects: Inspects,
    sizes: Sizes,
    source: &mut S,
    sink: &mut K,
    gate: &G,
) -> Ended
    requires { AreWithin sizes 0 }
    ensures { (words : List (List ℕ)) (checks : Bool) → inspects ≡ inspects_for checks
        → AsksFor words (asked_run checks sizes) → Answers words
        (input_of (S.left source.old) (S.left source.new) (S.faults source.old) (S.faults source.new))
        (K.HasTaken sink.old) (K.HasTaken sink.new) (K.faults sink.old) (K.faults sink.new) result }
{
    match read_source(alloc, source) {
        Ok(bytes) => run_source(rt, alloc, inspects, sizes, &bytes, sink, gate),
        Err(ReadStop::Fault) => give_up(sink, LastLine::ReadFault),
        Err(ReadStop::TooLong) => give_up(sink, LastLine::SourceTooLong),
        Err(ReadStop::NoMemory) => give_up(sink, LastLine::NoMemory),
    }
}

/// Ends without a heap.
pub(crate) fn give_up<K: Sink>(sink: &mut K, last: LastLine) -> Ended
    ensures unopened { result.kept ≡ None }
    ensures taken { Taken (K.HasTaken sink.old) (K.HasTaken sink.new)
        (K.faults sink.old) (K.faults sink.new) (unopened last) result.status }
{
    let status = last.conclude(sink);
    Ended { status, kept: None }
}

/// Reads a source as a script and runs it. All memory is taken before the first command.
fn run_source<K: Sink, G: Gate, R: Threads + Sync>(
    rt: &R,
    alloc: Global,
    inspects: Inspects,
    sizes: Sizes,
    source: &[u8],
    sink: &mut K,
    gate: &G,
) -> Ended
    requires { AreWithin sizes 0 }
    ensures { (checks : Bool) → inspects ≡ inspects_for checks
        → Runs checks sizes source.now (K.HasTaken sink.old) (K.HasTaken sink.new)
        (K.faults sink.old) (K.faults sink.new) result }
{
    let script = match parse(alloc, source) {
        Ok(script) => script,
        Err(stop) => return give_up(sink, LastLine::of_source(stop)),
    };
    match Opened::new(alloc, inspects, sizes, script.variables()) {
        Ok(opened) => run_opened(rt, opened, &script, sink, gate),
        Err(_) => give_up(sink, LastLine::NoMemory),
    }
}

/// Runs a script for which all is opened, and keeps the heap as it is then.
fn run_opened<K: Sink, G: Gate, R: Threads + Sync>(
    rt: &R,
    opened: Opened,
    script: &Script<'_>,
    sink: &mut K,
    gate: &G,
) -> Ended
    requires { (inspects : Inspects) × (sizes : Sizes) × IsReady inspects sizes (length script.now.variables) opened }
    ensures { (checks : Bool) (sizes : Sizes) (bytes : List ℕ) → reading bytes ≡ Ok script.now
        → IsReady (inspects_for checks) sizes (length script.now.variables) opened
        → Runs checks sizes bytes (K.HasTaken sink.old) (K.HasTaken sink.new)
        (K.faults sink.old) (K.faults sink.new) result }
{
    let Ran { finished, heap } = opened.run(rt, script, sink, gate);
    let status = conclude(&finished, sink);
    Ended {
        status,
        kept: Some(keep(heap, &finished)),
    }
}

/// Writes the last line of a script that was run, and answers the status.
fn conclude<K: Sink>(finished: &Finished, sink: &mut K) -> u8
    ensures cut { IsCut finished.now.how → (result ≡ sink_fault_status) × (sink.new ≡ sink.old) }
    ensures written { ¬ IsCut finished.now.how → result ≢ sink_fault_status →
        let last = last_line_of finished.now.how finished.now.line in (result ≡ status_of last)
        × Appends (K.HasTaken sink.old) (K.HasTaken sink.new) (last_bytes last)
        × (K.faults sink.new ≡ K.faults sink.old) }
    ensures failed { ¬ IsCut finished.now.how → result ≡ sink_fault_status →
        let last = last_line_of finished.now.how finished.now.line in
        AppendsSome (K.HasTaken sink.old) (K.HasTaken sink.new) (last_bytes last)
        × Rose (K.faults sink.old) (K.faults sink.new) }
{
    match finished.how {
        // Nothing is written behind a write that failed: the sink has a front of the bytes, and no more.
        How::SinkFault { .. } => SINK_FAULT,
        _ => LastLine::of(finished).conclude(sink),
    }
}
