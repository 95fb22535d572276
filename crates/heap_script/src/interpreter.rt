//! A script on the heap, line by line in the order of execution.
ghost use Rattle.std.specs.Prelude.{◌≡◌, ◌+◌, ◌<◌, ◌≤◌, Bool, false, Option, [], length, OnOk, OnErr};
ghost use Rattle.object_graph.specs.Graphs.{Graph, start};
ghost use Rattle.mutator.specs.CarriesOut.{field_numbers};
ghost use Rattle.write_barrier.specs.MutatorState.{IsOpened};
ghost use Rattle.collector.specs.States.{HeapShows, with_collected};
ghost use Rattle.byte_ends.specs.Faults.{Rose};
ghost use Rattle.script_text.specs.Limits.{field_names_most};
ghost use Rattle.script_text.specs.Sound.{AreShort};
ghost use Rattle.heap_check.specs.declared.flaw.Flaw.{Flaw as Found};
ghost use Rattle.heap_script.specs.Runs.{CutsOff, waiting_of, IsCut};
ghost use Rattle.heap_script.specs.Inspecting.{counts_at_end, plan_of, IsFor, HasInspected, JudgesAfter, how_found};
ghost use Rattle.heap_script.specs.Stages.{stage_of};
ghost use Rattle.heap_script.specs.Progress.{Handed, how_of};
ghost use Rattle.heap_script.specs.Found.{PausesFound, FinishesFound, EndIsJudged};

use crate::execute::execute_line;
use crate::finished::{Finished, How};
use crate::flushing::flush;
use crate::inspecting::{Inspection, Judge, flaw_behind, inspect_end};
use crate::lines::{Reached, run_lines};
use crate::loop_counters::LoopCounters;
use crate::pace::Unpaced;
use byte_ends::{Failed, Sink};
use collector::Heap;
use crew::Gate;
use heap_command::FaultWord;
use mutator::{OUTPUT_BYTES, Output, ROOM, Stop};
use script_text::Script;
use std::thread::Threads;

/// How many lines are executed at most.
pub(crate) const LINES_MOST: u64 = 20_000_000;

/// With more bytes than these waiting, the output may lack room for a command.
pub(crate) const FULL_FROM: usize = (OUTPUT_BYTES - ROOM) as usize;

/// Runs a script on a heap that was just opened, with an output that is empty, and writes to the sink what it tells.
/// Threads and gates are not used. The inspection says what is done about the heap at the end of the script, and after
/// lines for which it was fully collected; a checker in it is one for the heap's regions.
pub fn run_script<K: Sink, J: Judge, G: Gate, R: Threads + Sync>(
    _rt: &R,
    heap: &mut Heap,
    script: &Script<'_>,
    out: &mut Output,
    sink: &mut K,
    inspection: &mut Inspection<J>,
    _gate: &G,
) -> Finished
    requires shown { HeapShows heap.old start }
    requires opened { IsOpened heap.old.main }
    requires closed { heap.old.rest.in_cycle ≡ false }
    requires variables { heap.old.main.seat.space.variables ≡ length script.now.variables }
    requires empty { out.old ≡ [] }
    requires for_heap { IsFor heap.old (plan_of J.regions inspection.old) }
    ensures finishes { (found : Option Found) × (ended : Bool)
        × HasInspected J.Judged script.now heap.old inspection.old ended result.executed heap.new inspection.new found
        × (finishes : FinishesFound (counts_at_end (plan_of J.regions inspection.old)) script.now
        (stage_of heap.new.main) result (K.HasTaken sink.old) (K.HasTaken sink.new) (K.faults sink.old)
        (K.faults sink.new) found)
        × EndIsJudged J.Judged heap.old inspection.old inspection.new heap.new.main finishes }
    ensures emptied { ¬ IsCut result.how → out.new ≡ [] }
    ensures shows { (graph : Graph) × HeapShows heap.new graph }
    ensures space { heap.new.main.seat.space ≡ heap.old.main.seat.space }
{
    field_names_fit(script);
    let ran = interpret(heap, script, out, sink, inspection);
    let finished = Finished {
        how: inspect_end(ran.how, heap, inspection),
        ..ran
    };
    match finished.how {
        How::SinkFault { .. } => finished,
        how => match flush(sink, out) {
            Ok(()) => finished,
            Err(Failed) => Finished {
                how: How::SinkFault { need: how.need() },
                ..finished
            },
        },
    }
}

/// A script has at most 4,096 fields, and their names are short. The call says so, and does nothing else.
#[inline(always)]
fn field_names_fit(script: &Script<'_>)
    ensures few { length script.now.fields ≤ field_names_most }
    ensures short { AreShort script.now.fields }
{
    let _count = script.fields();
}

/// Executes lines from the first on. What they write waits in the output or was handed to the sink.
/// Before each line, and nowhere else, an output that is full is handed on.
fn interpret<K: Sink, J: Judge>(
    heap: &mut Heap,
    script: &Script<'_>,
    out: &mut Output,
    sink: &mut K,
    inspection: &mut Inspection<J>,
) -> Finished
    requires shown { HeapShows heap.old start }
    requires opened { IsOpened heap.old.main }
    requires closed { heap.old.rest.in_cycle ≡ false }
    requires variables { heap.old.main.seat.space.variables ≡ length script.now.variables }
    requires for_heap { IsFor heap.old (plan_of J.regions inspection.old) }
    requires fields { length script.now.fields ≤ field_numbers }
    requires short { AreShort script.now.fields }
    requires empty { out.old ≡ [] }
    ensures pauses { (found : Option Found) × (ended : Bool) × (result.how ≡ How.End → ended ≡ false)
        × HasInspected J.Judged script.now heap.old inspection.old ended result.executed heap.new inspection.new found
        × PausesFound false script.now heap.new out.new result
        (K.HasTaken sink.old) (K.HasTaken sink.new) (K.faults sink.old) (K.faults sink.new) found }
    ensures space { heap.new.main.seat.space ≡ heap.old.main.seat.space }
    ensures same { plan_of J.regions inspection.new ≡ plan_of J.regions inspection.old }
    ensures taken { heap.old.collected ≡ false → heap.new.collected ≡ false }
{
    let lines = script.lines();
    let mut turns = LoopCounters::new();
    let (mut at, mut objects, mut executed) = (0usize, 0u32, 0u64);
    while at < lines.len() {
        let line = &lines[at];
        if executed == LINES_MOST {
            return Finished::after(How::LineLimit, line.number, executed);
        }
        let Ok(()) = flush_if_full(sink, out) else {
            return Finished::after(How::SinkFault { need: 0 }, 0, executed);
        };
        match execute_line(heap, script, &mut objects, &mut turns, at, &line.what, out) {
            Ok(next) => at = next,
            Err(stop) => {
                let how = stopped(stop, heap, inspection);
                return Finished::after(how, line.number, executed);
            }
        }
        executed += 1;
        if let Some(flaw) = flaw_behind(heap, inspection) {
            return Finished::after(How::Flawed(flaw), line.number, executed);
        }
        let from = Reached { at, executed };
        let ran = run_lines(heap, script, &mut objects, &mut turns, from, out, &Unpaced);
        at = ran.at;
        executed = ran.executed;
    }
    Finished::after(How::End, 0, executed)
}

/// How a run ends at a line whose command was not carried out. If that came behind a full collection, the heap is
/// judged.
fn stopped<J: Judge>(stop: Stop, heap: &mut Heap, inspection: &mut Inspection<J>) -> How
    requires shown { (graph : Graph) × HeapShows heap.old graph }
    requires for_heap { IsFor heap.old (plan_of J.regions inspection.old) }
    ensures judged { (found : Option Found)
        × JudgesAfter J.Judged heap.old.collected heap.old.main inspection.old inspection.new found
        × (result ≡ how_found found (how_of stop)) }
    ensures taken { heap.new ≡ with_collected heap.old false }
    ensures shows { (graph : Graph) → HeapShows heap.old graph → HeapShows heap.new graph }
    ensures same { plan_of J.regions inspection.new ≡ plan_of J.regions inspection.old }
{
    if let Some(flaw) = flaw_behind(heap, inspection) {
        return How::Flawed(flaw);
    }
    match stop {
        Stop::Fault(word) => How::Fault(word),
        Stop::NoRoom { need } => How::HeapFull { need },
        Stop::NoClear { entries: _ } => How::Fault(FaultWord::WeakFull),
    }
}

/// Hands the waiting bytes on where they leave too little room for a command.
#[inline(always)]
fn flush_if_full<K: Sink>(sink: &mut K, out: &mut Output) -> Result<(), Failed>
    ensures room { OnOk result (length out.new + ROOM ≤ OUTPUT_BYTES) }
    ensures handed { OnOk result (Handed (K.HasTaken sink.old) (K.HasTaken sink.new) out.new out.old) }
    ensures waits { OnOk result (out.new ≡ waiting_of out.old) }
    ensures due { OnErr result (OUTPUT_BYTES < length out.old + ROOM) }
    ensures stopped { OnErr result (CutsOff (K.HasTaken sink.old) (K.HasTaken sink.new) out.old) }
    ensures failed { OnErr result (Rose (K.faults sink.old) (K.faults sink.new)) }
    ensures steady { OnOk result (K.faults sink.new ≡ K.faults sink.old) }
{
    if out.bytes().len() > FULL_FROM {
        flush(sink, out)?;
    }
    Ok(())
}
