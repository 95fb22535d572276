//! Soaking: a generated script is run for its sums. Nothing is read.
ghost use Rattle.std.specs.Prelude.{◌≡◌, ◌≤◌, ℕ, Ok, length};
ghost use Rattle.script_text.specs.Grammar.{reading};
ghost use Rattle.script_gen.specs.Generated.{generated};
ghost use Rattle.page_space.specs.Sizes.{AreWithin};
ghost use Rattle.heap_run.specs.declared.opened.Inspects.TheVariants.{Counts};
ghost use Rattle.heap_run.specs.Opening.{IsReady};
ghost use Rattle.heap_run.specs.Answers.{Soaks};

use crate::ended::{Ended, keep};
use crate::last_line::LastLine;
use crate::opened::{Inspects, Opened, Ran};
use crate::program::give_up;
use byte_ends::{Sink, Tally};
use crew::Gate;
use page_space::Sizes;
use script_gen::{FORMS_MOST, generate};
use script_laws::generated_scripts_are_read;
use script_text::{Script, parse};
use std::alloc::Global;
use std::thread::Threads;

/// Runs the script that is generated of a seed, with so many forms, on a heap of these sizes, and writes its last line.
/// All memory is taken before the first command.
pub(crate) fn soak<K: Sink, G: Gate, R: Threads + Sync>(
    rt: &R,
    alloc: Global,
    sizes: Sizes,
    seed: u64,
    forms: u32,
    sink: &mut K,
    gate: &G,
) -> Ended
    requires within { AreWithin sizes 0 }
    requires few { forms ≤ FORMS_MOST }
    ensures { Soaks sizes seed forms (K.HasTaken sink.old) (K.HasTaken sink.new)
        (K.faults sink.old) (K.faults sink.new) result }
{
    let Ok(source) = generate(alloc, seed, forms) else {
        return give_up(sink, LastLine::NoMemory);
    };
    // Tells that the source is a script, so want of memory is all that can stop its reading.
    generated_scripts_are_read();
    let script = match parse(alloc, &source) {
        Ok(script) => script,
        Err(stop) => return give_up(sink, LastLine::of_source(stop)),
    };
    match Opened::new(alloc, Inspects::Counts, sizes, script.variables()) {
        Ok(opened) => soak_opened(rt, opened, &script, sink, gate),
        Err(_) => give_up(sink, LastLine::NoMemory),
    }
}

/// Runs a script for which all is opened, writes the last line of that as a soak, and keeps the heap as it is then.
fn soak_opened<K: Sink, G: Gate, R: Threads + Sync>(
    rt: &R,
    opened: Opened,
    script: &Script<'_>,
    sink: &mut K,
    gate: &G,
) -> Ended
    requires { (sizes : Sizes) × IsReady Counts sizes (length script.now.variables) opened }
    ensures { (sizes : Sizes) (seed : ℕ) (forms : ℕ) → reading (generated seed forms) ≡ Ok script.now
        → IsReady Counts sizes (length script.now.variables) opened
        → Soaks sizes seed forms (K.HasTaken sink.old) (K.HasTaken sink.new)
        (K.faults sink.old) (K.faults sink.new) result }
{
    let mut tally = Tally::new();
    let Ran { finished, heap } = opened.run(rt, script, &mut tally, gate);
    let status = LastLine::of_soak(&finished, &tally).conclude(sink);
    Ended {
        status,
        kept: Some(keep(heap, &finished)),
    }
}
