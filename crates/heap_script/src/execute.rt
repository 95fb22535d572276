//! One line of a script on the heap, whatever it does. What each command does stands in `commands` and `collecting`,
//! what is done where one stops in `making_room`, and which line comes next in `interpreter` and `loop_counters`.
ghost use Rattle.std.specs.Prelude.{◌≡◌, ◌+◌, ◌<◌, ◌≤◌, ◌^◌};
ghost use Rattle.std.specs.Prelude.{ℕ, List, ◌++◌, length, if◌then◌else◌};
ghost use Rattle.std.specs.Prelude.{false, is_ok, OnOk, OnErr, IfOk};
ghost use Rattle.object_graph.specs.Graphs.{Graph};
ghost use Rattle.object_graph.specs.Run.{lines_most};
ghost use Rattle.heap_command.specs.Commands.{IsWithin};
ghost use Rattle.script_text.specs.Limits.{open_most};
ghost use Rattle.script_text.specs.Sound.{NamesWithin, AreShort};
ghost use Rattle.mutator.specs.CarriesOut.{field_numbers};
ghost use Rattle.collector.specs.States.{HeapShows, with_cycle};
ghost use Rattle.heap_script.specs.Collecting.{Tries};
ghost use Rattle.heap_script.specs.Executing.{objects_after};
ghost use Rattle.heap_script.specs.Cycles.{asks_collector, cycle_after_line};
ghost use Rattle.heap_script.specs.Progress.{objects_made, made_by, command_in, outcome_of};
ghost use Rattle.heap_script.specs.Noting.{NotesLine, NotesAtLast};
ghost use Rattle.heap_script.specs.LoopCounters.{standing_after, IsInside};

use crate::collecting::{asks_collector, collect_as_asked};
use crate::commands::execute;
use crate::loop_counters::LoopCounters;
use crate::making_room::{Attempt, make_room_for};
use collector::Heap;
use heap_command::Command;
use live_cells::{laws_of_counts, laws_of_fitting};
use mutator::{Explained, OUTPUT_BYTES, Output, ROOM, Stop};
use script_text::{Script, What};

/// Executes a line, and answers where the run goes on. `objects` counts the objects that were made.
#[inline(always)]
pub(crate) fn execute_line(
    heap: &mut Heap,
    script: &Script<'_>,
    objects: &mut u32,
    turns: &mut LoopCounters,
    at: usize,
    what: &What,
    out: &mut Output,
) -> Result<usize, Stop>
    requires shown { (graph : Graph) × HeapShows heap.old graph × (objects.old ≡ length graph.objects) }
    requires within { NamesWithin heap.old.main.seat.space.variables field_numbers what.now }
    requires few { objects.old < lines_most }
    requires short { AreShort script.now.fields }
    requires room { length out.old + ROOM ≤ OUTPUT_BYTES }
    requires small { at < 2 ^ 63 }
    requires inside { IsInside turns.old what.now }
    requires deep { length (standing_after at turns.old what.now).turns ≤ open_most }
    ensures carried { (graph : Graph) → HeapShows heap.old graph →
        objects.old ≡ length graph.objects → (text : List ℕ)
        × NotesLine script.now.fields heap.old heap.new graph (command_in what.now) text (outcome_of result)
        × (out.new ≡ (if is_ok result then out.old ++ text else out.old)) }
    ensures place { IfOk result (λ place. place ≡ (standing_after at turns.old what.now).at) }
    ensures turned { OnOk result (turns.new ≡ (standing_after at turns.old what.now).turns) }
    ensures unturned { OnErr result (turns.new ≡ turns.old) }
    ensures rest { heap.new.rest ≡
        with_cycle heap.old.rest (cycle_after_line heap.old.rest.in_cycle (command_in what.now)) }
    ensures counted { OnOk result (objects.new ≡ objects.old + made_by (command_in what.now)) }
{
    match what {
        What::Run(command) => {
            if asks_collector(command) {
                collect_as_asked(heap, command, out);
            } else {
                carry_out(heap, script, objects, command, out)?;
            }
            Ok(at + 1)
        }
        jump => Ok(turns.jump(at, jump) + 1),
    }
}

/// Carries out a command that is none of the collector's. Where it stops since there is no room for it, or since its
/// weak map is full of pairs, room is made for it, and then it is tried again.
#[inline(always)]
fn carry_out(
    heap: &mut Heap,
    script: &Script<'_>,
    objects: &mut u32,
    command: &Command,
    out: &mut Output,
) -> Result<(), Stop>
    requires apart { asks_collector command.now ≡ false }
    requires shown { (graph : Graph) × HeapShows heap.old graph × (objects.old ≡ length graph.objects) }
    requires within { IsWithin heap.old.main.seat.space.variables field_numbers command.now }
    requires few { objects.old < lines_most }
    requires short { AreShort script.now.fields }
    requires room { length out.old + ROOM ≤ OUTPUT_BYTES }
    ensures carried { (graph : Graph) → HeapShows heap.old graph →
        objects.old ≡ length graph.objects → (text : List ℕ)
        × NotesAtLast script.now.fields heap.old heap.new graph command.now text result
        × (out.new ≡ (if is_ok result then out.old ++ text else out.old)) }
    ensures rest { heap.new.rest ≡ heap.old.rest }
    ensures counted { OnOk result (objects.new ≡ objects.old + objects_made command.now) }
{
    // The call stands in one place alone: with a second one it is not inlined into the loop over
    // lines, whatever its attribute asks.
    let mut tried = Attempt::Once;
    'tries: loop {
        let Err(stop) = attempt(heap, script, objects, command, out) else {
            return Ok(());
        };
        let Some(next) = make_room_for(heap, stop, tried) else {
            // A weak map that is full still, or words for which there is no room, after a full
            // collection: the one is a fault, and the others fit nowhere.
            laws_of_counts();
            laws_of_fitting();
            return Err(stop);
        };
        tried = next;
    }
}

/// Carries out a command that is none of the collector's, if there is room for it. `objects` counts the objects that
/// were made.
#[inline(always)]
fn attempt(
    heap: &mut Heap,
    script: &Script<'_>,
    objects: &mut u32,
    command: &Command,
    out: &mut Output,
) -> Result<(), Stop>
    requires apart { asks_collector command.now ≡ false }
    requires shown { (graph : Graph) × HeapShows heap.old graph × (objects.old ≡ length graph.objects) }
    requires within { IsWithin heap.old.main.seat.space.variables field_numbers command.now }
    requires few { objects.old < lines_most }
    requires short { AreShort script.now.fields }
    requires room { length out.old + ROOM ≤ OUTPUT_BYTES }
    ensures carried { (graph : Graph) → HeapShows heap.old graph →
        objects.old ≡ length graph.objects → (text : List ℕ)
        × Tries script.now.fields heap.old.main heap.new.main graph command.now text result
        × (out.new ≡ (if is_ok result then out.old ++ text else out.old)) }
    ensures rest { heap.new.rest ≡ heap.old.rest }
    ensures noted { heap.new.collected ≡ heap.old.collected }
    ensures counted { objects.new ≡ objects_after objects.old command.now result }
{
    match command {
        Command::Print { v } => mutator::print(heap.main_mut(), *v, out),
        Command::Same { a, b } => mutator::same(heap.main_mut(), *a, *b, out),
        Command::Alike { x, y } => mutator::alike(heap.main_mut(), *x, *y, out),
        Command::Shape { x } => mutator::shape(heap.main_mut(), script, *x, out),
        _ => match execute::<Explained>(heap, objects, command) {
            Some(told) => told.came,
            None => unreachable!(),
        },
    }
}
