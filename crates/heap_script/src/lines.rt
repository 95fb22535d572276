//! Lines that are executed one after another, as long as none of them collects the heap, writes or stops. What ends
//! them changes nothing, and is executed by `execute_line`, which makes room for it and knows why it stops.
ghost use Rattle.std.specs.Prelude.{◌≡◌, ◌+◌, ◌-◌, ◌<◌, ◌≤◌, ℕ, List, [], length, drop, false, is_ok, Ok};
ghost use Rattle.std.specs.Prelude.{IsTrue, IfSome};
ghost use Rattle.object_graph.specs.Run.{lines_most};
ghost use Rattle.script_text.specs.Scripts.{ScriptText};
ghost use Rattle.mutator.specs.CarriesOut.{field_numbers};
ghost use Rattle.collector.specs.States.{HeapState};
ghost use Rattle.heap_script.specs.Runs.{OutputHolds};
ghost use Rattle.heap_script.specs.Between.{Running, only, RunsLines, Begins};
ghost use Rattle.heap_script.specs.Noting.{Passes};
ghost use Rattle.heap_script.specs.Stages.{uncollected};

use crate::commands::execute;
use crate::interpreter::{FULL_FROM, LINES_MOST};
use crate::loop_counters::LoopCounters;
use crate::pace::Pace;
use collector::Heap;
use mutator::{OUTPUT_BYTES, Output, ROOM};
use script_text::{Line, Script, What};

/// How far a run came: the place of its next line, and how many lines were executed.
#[derive(Clone, Copy)]
pub(crate) struct Reached {
    pub(crate) at: usize,
    pub(crate) executed: u64,
}

/// Executes lines from a place on, as long as none collects the heap, writes or stops, and as many as the pace allows.
/// No line is executed on an output that is full, which is handed on before the next one; since none writes, it is
/// asked for once.
#[inline(never)]
pub(crate) fn run_lines<P: Pace>(
    heap: &mut Heap,
    script: &Script<'_>,
    objects: &mut u32,
    turns: &mut LoopCounters,
    from: Reached,
    out: &Output,
    pace: &P,
) -> Reached
    requires runs { (taken : List ℕ)
        × Running script.now heap.old objects.old out.now (only []) (only taken) from.at turns.old from.executed
        uncollected }
    requires variables { heap.old.main.seat.space.variables ≡ length script.now.variables }
    requires fields { length script.now.fields ≤ field_numbers }
    ensures runs { (taken : List ℕ)
        → Running script.now heap.old objects.old out.now (only []) (only taken) from.at turns.old from.executed
        uncollected
        → Running script.now heap.new objects.new out.now (only []) (only taken) result.at turns.new
        result.executed uncollected }
    ensures passes { (taken : List ℕ)
        → Running script.now heap.old objects.old out.now (only []) (only taken) from.at turns.old from.executed
        uncollected → heap.old.collected ≡ false
        → Passes script.now heap.old from.executed heap.new result.executed }
    ensures holds { OutputHolds script.now from.executed out.now → OutputHolds script.now result.executed out.now }
    ensures space { heap.new.main.seat.space ≡ heap.old.main.seat.space }
    ensures noted { heap.new.collected ≡ heap.old.collected }
    ensures further { from.executed ≤ result.executed }
    ensures few { result.executed ≤ from.executed + P.most pace.now }
{
    let lines = script.lines();
    let last = LINES_MOST.min(from.executed.saturating_add(pace.lines_most()));
    let left = (last - from.executed) as usize;
    if is_full(out) || from.at >= lines.len() || left < lines.len() - from.at {
        return from;
    }
    // What is left of the script, and how many more lines may be executed than there are in it. So a command counts
    // nothing, and only a `repeat` or an `end` looks at the limit.
    let mut rest = lines_from(lines, from.at);
    let mut spare = left - rest.len();
    while spare >= lines.len() {
        let (later, jump) = run_commands(heap, objects, rest, pace);
        rest = later;
        let Some(what) = jump else {
            break;
        };
        let at = lines.len() - rest.len();
        let after = turns.jump(at, what);
        spare = spare + after - at;
        rest = lines_from(lines, after + 1);
    }
    Reached {
        at: lines.len() - rest.len(),
        executed: last - (spare + rest.len()) as u64,
    }
}

/// Executes the commands of these lines up to the first `repeat` or `end`, or to one that is not carried out here, and
/// returns the lines from there on, with what the first of them does where it is a `repeat` or an `end`. Commands have
/// a loop of their own, so what is wanted only at the ends of blocks takes no register from them.
#[inline(always)]
fn run_commands<'l, P: Pace>(
    heap: &mut Heap,
    objects: &mut u32,
    lines: &'l [Line],
    pace: &P,
) -> (&'l [Line], Option<&'l What>)
    requires runs { (script : ScriptText) × (out : List ℕ) × (taken : List ℕ) × (ts : List ℕ) × (spare : ℕ) × (last : ℕ)
        × RunsLines script heap.old objects.old out taken ts lines.now spare last }
    ensures runs { (script : ScriptText) (out taken ts : List ℕ) (spare last : ℕ)
        → RunsLines script heap.old objects.old out taken ts lines.now spare last
        → RunsLines script heap.new objects.new out taken ts result.0.now spare last }
    ensures passes { (script : ScriptText) (out taken ts : List ℕ) (spare last : ℕ) (start : HeapState) (from : ℕ)
        → RunsLines script heap.old objects.old out taken ts lines.now spare last → heap.old.collected ≡ false
        → Passes script start from heap.old (last - (spare + length lines.now))
        → Passes script start from heap.new (last - (spare + length result.0.now)) }
    ensures holds { (script : ScriptText) (out taken ts : List ℕ) (spare last : ℕ)
        → RunsLines script heap.old objects.old out taken ts lines.now spare last → length out + ROOM ≤ OUTPUT_BYTES
        → OutputHolds script (last - (spare + length lines.now)) out
        → OutputHolds script (last - (spare + length result.0.now)) out }
    ensures space { heap.new.main.seat.space ≡ heap.old.main.seat.space }
    ensures noted { heap.new.collected ≡ heap.old.collected }
    ensures fewer { length result.0.now ≤ length lines.now }
    ensures begins { IfSome result.1 (λ what. Begins result.0.now what.now) }
{
    let mut rest = lines;
    while !rest.is_empty() {
        match &rest[0].what {
            What::Run(command) => {
                if !execute::<bool>(heap, objects, command).unwrap_or(false) {
                    return (rest, None);
                }
                pace.command_done();
                rest = lines_from(rest, 1);
            }
            jump => return (rest, Some(jump)),
        }
    }
    (rest, None)
}

/// The lines from a place on.
#[inline(always)]
fn lines_from(lines: &[Line], at: usize) -> &[Line]
    requires within { at ≤ length lines.now }
    ensures { result.now ≡ drop at lines.now }
{
    &lines[at..]
}

/// Whether what waits has to be handed on before the next line.
#[inline(always)]
fn is_full(out: &Output) -> bool
    ensures { result ≡ false → length out.now + ROOM ≤ OUTPUT_BYTES }
{
    out.bytes().len() > FULL_FROM
}
