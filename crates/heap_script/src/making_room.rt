//! Making room for a command that stopped since there was none, or since its weak map is full of pairs. `carry_out`
//! tries the command again then.
ghost use Rattle.std.specs.Prelude.{◌≡◌, ◌≢◌, ◌≤◌, Some, true};
ghost use Rattle.tagged_word.specs.Cells.{cell_words_most};
ghost use Rattle.object_graph.specs.Graphs.{Graph};
ghost use Rattle.collector.specs.States.{HeapShows};
ghost use Rattle.heap_script.specs.declared.making_room.Attempt.TheVariants.{Scavenged};
ghost use Rattle.heap_script.specs.MakingRoom.{IsServable, IsClearable, MakesRoomFor, FindsRoom, FindsFirst, FindsLast};
ghost use Rattle.heap_script.specs.MakingRoom.{ClearsPairs, CollectsNow, noted_by};

use collector::Heap;
use mutator::Stop;

/// What was done for a command since it stopped for the first time.
#[derive(Clone, Copy)]
pub(crate) enum Attempt {
    /// Nothing: it was tried once at most.
    Once,
    /// The heap was scavenged, and there is room for the words that the command needs.
    Scavenged,
    /// The heap was fully collected.
    Collected,
    /// Behind a full collection there is room for the words that the command needs.
    Granted,
}

/// Makes room for a command that stopped, where that may help, and returns what was done for it.
#[cold]
#[inline(never)]
pub(crate) fn make_room_for(heap: &mut Heap, stop: Stop, tried: Attempt) -> Option<Attempt>
    requires servable { IsServable stop }
    requires clearable { IsClearable stop tried }
    requires shown { (graph : Graph) × HeapShows heap.old graph }
    ensures way { MakesRoomFor heap.old heap.new tried stop result }
    ensures shows { (graph : Graph) → HeapShows heap.old graph → HeapShows heap.new graph }
    ensures rest { heap.new.rest ≡ heap.old.rest }
    ensures noted { heap.new.collected ≡ noted_by heap.old.collected result }
{
    match stop {
        Stop::Fault(_) => None,
        Stop::NoRoom { need } => find_room(heap, need, tried),
        Stop::NoClear { entries: _ } => clear_pairs(heap, tried),
    }
}

/// Finds room for so many words: by collections, and behind a full one in a free run of a page.
fn find_room(heap: &mut Heap, need: u32, tried: Attempt) -> Option<Attempt>
    requires some { 1 ≤ need }
    requires few { need ≤ cell_words_most }
    requires shown { (graph : Graph) × HeapShows heap.old graph }
    ensures way { FindsRoom heap.old heap.new need tried result }
    ensures shows { (graph : Graph) → HeapShows heap.old graph → HeapShows heap.new graph }
    ensures rest { heap.new.rest ≡ heap.old.rest }
    ensures noted { heap.new.collected ≡ noted_by heap.old.collected result }
{
    match tried {
        Attempt::Once => Some(collect_for(heap, need)),
        Attempt::Scavenged => None,
        Attempt::Collected => grant(heap, need),
        Attempt::Granted => None,
    }
}

/// Scavenges the heap for so many words, and collects it fully where they have no room then.
fn collect_for(heap: &mut Heap, need: u32) -> Attempt
    requires some { 1 ≤ need }
    requires few { need ≤ cell_words_most }
    requires shown { (graph : Graph) × HeapShows heap.old graph }
    ensures way { FindsFirst heap.old heap.new need result }
    ensures shows { (graph : Graph) → HeapShows heap.old graph → HeapShows heap.new graph }
    ensures rest { heap.new.rest ≡ heap.old.rest }
    ensures noted { heap.new.collected ≡ noted_by heap.old.collected (Some result) }
{
    if heap.make_room(need) {
        return Attempt::Scavenged;
    }
    // The words are not granted here: clearing may have lessened what the command needs, and then
    // granted words would be left over.
    heap.collect_all();
    Attempt::Collected
}

/// Sees to it that there is room for so many words on a heap that was fully collected, where there may be.
fn grant(heap: &mut Heap, need: u32) -> Option<Attempt>
    requires some { 1 ≤ need }
    requires few { need ≤ cell_words_most }
    requires shown { (graph : Graph) × HeapShows heap.old graph }
    ensures way { FindsLast heap.old heap.new need result }
    ensures shows { (graph : Graph) → HeapShows heap.old graph → HeapShows heap.new graph }
    ensures rest { heap.new.rest ≡ heap.old.rest }
    ensures noted { heap.new.collected ≡ heap.old.collected }
{
    if heap.serve(need) {
        Some(Attempt::Granted)
    } else {
        None
    }
}

/// Clears weak maps by a full collection, unless one came.
fn clear_pairs(heap: &mut Heap, tried: Attempt) -> Option<Attempt>
    requires unscavenged { tried ≢ Scavenged }
    requires shown { (graph : Graph) × HeapShows heap.old graph }
    ensures way { ClearsPairs heap.old heap.new tried result }
    ensures shows { (graph : Graph) → HeapShows heap.old graph → HeapShows heap.new graph }
    ensures rest { heap.new.rest ≡ heap.old.rest }
    ensures noted { heap.new.collected ≡ noted_by heap.old.collected result }
{
    match tried {
        Attempt::Once => Some(collect_all(heap)),
        // The command lacked words then, so its map was not full, and a scavenge fills none.
        Attempt::Scavenged => unreachable!(),
        Attempt::Collected => None,
        Attempt::Granted => None,
    }
}

/// Collects the heap fully.
fn collect_all(heap: &mut Heap) -> Attempt
    requires shown { (graph : Graph) × HeapShows heap.old graph }
    ensures way { CollectsNow heap.old heap.new result }
    ensures shows { (graph : Graph) → HeapShows heap.old graph → HeapShows heap.new graph }
    ensures rest { heap.new.rest ≡ heap.old.rest }
    ensures noted { heap.new.collected ≡ true }
{
    heap.collect_all();
    Attempt::Collected
}
