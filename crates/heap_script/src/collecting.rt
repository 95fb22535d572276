//! Commands of the collector: those that ask for a collection, or open or end a cycle of marking.
ghost use Rattle.std.specs.Prelude.{◌≡◌, ◌+◌, ◌≤◌, ◌++◌, ◌||◌, ℕ, List, length, IsTrue, true, false};
ghost use Rattle.object_graph.specs.Graphs.{Graph};
ghost use Rattle.object_graph.specs.Reach.{reached_objects, reached_entries};
ghost use Rattle.object_graph.specs.Texts.{line, census_text};
ghost use Rattle.collector.specs.Collected.{CollectsAll};
ghost use Rattle.collector.specs.States.{HeapShows, with_cycle};
ghost use Rattle.heap_script.specs.Noting.{NotesAsked};
ghost use Rattle.heap_script.specs.Cycles.{asks_collector, cycle_after_command};

use collector::Heap;
use heap_command::Command;
use mutator::{OUTPUT_BYTES, Output, ROOM};

/// Whether a command is one of the collector's.
#[inline(always)]
pub(crate) fn asks_collector(command: &Command) -> bool
    ensures { result ≡ asks_collector command.now }
{
    matches!(
        command,
        Command::Scavenge | Command::Mark | Command::Finish | Command::Gc | Command::Census
    )
}

/// Carries a command of the collector's out.
#[cold]
#[inline(never)]
pub(crate) fn collect_as_asked(heap: &mut Heap, command: &Command, out: &mut Output)
    requires asks { asks_collector command.now ≡ true }
    requires shown { (graph : Graph) × HeapShows heap.old graph }
    requires room { length out.old + ROOM ≤ OUTPUT_BYTES }
    ensures carried { (names : List (List ℕ)) (graph : Graph) → HeapShows heap.old graph → (text : List ℕ)
        × NotesAsked names heap.old heap.new graph command.now text
        × (out.new ≡ out.old ++ text) }
    ensures rest { heap.new.rest ≡ with_cycle heap.old.rest (cycle_after_command heap.old.rest.in_cycle command.now) }
{
    match command {
        Command::Scavenge => heap.scavenge(),
        Command::Mark => heap.begin_cycle(),
        Command::Finish => finish(heap),
        Command::Gc => heap.end_cycle(),
        Command::Census => tell_census(heap, out),
        _ => unreachable!(),
    }
}

/// Ends a cycle that is open, by a full collection.
fn finish(heap: &mut Heap)
    requires shown { (graph : Graph) × HeapShows heap.old graph }
    ensures closed { heap.old.rest.in_cycle ≡ false → heap.new.main ≡ heap.old.main }
    ensures collected { heap.old.rest.in_cycle ≡ true → (graph : Graph) → HeapShows heap.old graph →
        CollectsAll heap.old.main heap.new.main graph }
    ensures rest { heap.new.rest ≡ with_cycle heap.old.rest false }
    ensures noted { heap.new.collected ≡ (heap.old.rest.in_cycle || heap.old.collected) }
{
    if heap.in_cycle() {
        heap.end_cycle();
    }
}

/// Collects the heap fully, and tells how many objects and entries of weak maps are left.
fn tell_census(heap: &mut Heap, out: &mut Output)
    requires shown { (graph : Graph) × HeapShows heap.old graph }
    requires room { length out.old + ROOM ≤ OUTPUT_BYTES }
    ensures collected { (graph : Graph) → HeapShows heap.old graph →
        CollectsAll heap.old.main heap.new.main graph }
    ensures told { (graph : Graph) → HeapShows heap.old graph →
        out.new ≡ out.old ++ line (census_text (reached_objects graph) (reached_entries graph)) }
    ensures rest { heap.new.rest ≡ with_cycle heap.old.rest false }
    ensures noted { heap.new.collected ≡ true }
{
    let census = heap.census();
    mutator::put_census(census.objects, census.entries, out);
}
