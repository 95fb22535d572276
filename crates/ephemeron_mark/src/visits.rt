//! Visiting the marked cells until there are no more: first those that were given as seen, then the others.
ghost use Rattle.std.specs.Prelude.{◌≡◌, ◌≢◌, ℕ, ◌≤◌, ◌<◌, ◌↔◌, [], Contains, length};
ghost use Rattle.std.specs.List.{AllPairs};
ghost use Rattle.std.specs.Vec.{vec_capacity};
ghost use Rattle.page_space.specs.Extents.{roots_start};
ghost use Rattle.heap_model.specs.Slots.{IsWeakCellAt};
ghost use Rattle.heap_model.specs.Wholeness.{Whole};
ghost use Rattle.write_barrier.specs.MutatorState.{heap_of};
ghost use Rattle.ephemeron_mark.specs.Marked.{IsLiveAt, IsLiveFrom, StandsInHeap, SeenLeadToGiven};
ghost use Rattle.ephemeron_mark.specs.Progress.{IsMarking, HasGrown, HasMore, IsCellOf, AreWaiting, WaitsMore};
ghost use Rattle.ephemeron_mark.specs.Progress.{IsVisited, AreVisited, AreMapsAmong, noted};

use crate::ephemerons::{mark_pairs, wake};
use crate::marking::Marking;
use crate::seen::visit_seen;
use crate::targets::{mark_roots, mark_slots};
use crate::waiting::Waiting;
use cell_layout::Cell;
use cell_list::CellList;
use heap_walk::known_cell;
use tagged_word::Kind;
use write_barrier::Main;

/// Lists a cell if it is a weak map's.
pub(crate) fn note_map(maps: &mut Vec<u32>, cell: &Cell)
    requires room { length maps.old.items < vec_capacity maps.old }
    ensures noted { maps.new.items ≡ noted cell.now.layout.kind maps.old.items cell.now.at }
    ensures room { vec_capacity maps.old ≤ vec_capacity maps.new }
{
    if cell.layout.kind != Kind::Weak {
        return;
    }
    if maps.push(cell.at).is_err() {
        unreachable!();
    }
}

/// Visits a marked cell.
fn visit(main: &Main, cells: &mut CellList, waiting: &mut Waiting, cell: &Cell)
    requires marking { IsMarking main.now cells.old }
    requires waits { AreWaiting (heap_of main.now) cells.old waiting.old }
    requires marked { Contains cells.old.addresses cell.now.at }
    requires stands { IsCellOf (heap_of main.now) cell.now }
    ensures grown { HasGrown main.now cells.old cells.new }
    ensures waits { AreWaiting (heap_of main.now) cells.new waiting.new }
    ensures more { WaitsMore cells.old waiting.old waiting.new }
    ensures visited { IsVisited (heap_of main.now) cells.new waiting.new cell.now.at }
{
    mark_slots(main, cells, cell);
    mark_pairs(main, cells, waiting, cell);
    wake(main, cells, waiting, cell.at);
}

/// Visits all marked cells from a place of the list on, also those that are marked on the way.
fn visit_all(
    main: &Main,
    cells: &mut CellList,
    maps: &mut Vec<u32>,
    waiting: &mut Waiting,
    from: usize,
)
    requires marking { IsMarking main.now cells.old }
    requires waits { AreWaiting (heap_of main.now) cells.old waiting.old }
    requires visited { AreVisited (heap_of main.now) cells.old waiting.old from }
    requires maps { AreMapsAmong (heap_of main.now) cells.old maps.old.items from }
    requires within { from ≤ length cells.old.addresses }
    requires room { cells.old.bound ≤ vec_capacity maps.old }
    ensures more { HasMore main.now cells.old cells.new }
    ensures once { AllPairs (λ at other. at ≢ other) cells.new.addresses }
    ensures visited { AreVisited (heap_of main.now) cells.new waiting.new (length cells.new.addresses) }
    ensures maps { AreMapsAmong (heap_of main.now) cells.new maps.new.items (length cells.new.addresses) }
    ensures room { vec_capacity maps.old ≤ vec_capacity maps.new }
    ensures bound { waiting.new.bound ≡ waiting.old.bound }
{
    let mut next = from;
    while next < cells.len() {
        // The cell that was found last mostly stands near the one that was visited last.
        cells.bring(next);
        let cell = known_cell(main, cells.get(next));
        note_map(maps, &cell);
        visit(main, cells, waiting, &cell);
        next += 1;
    }
}

/// Marks exactly what is live from the cells that the marking was given, and from variables. It lists the
/// weak maps among that. Of a cell that was given as seen it looks at no slot, unless it is a weak map.
pub fn mark_given(main: &Main, marking: &mut Marking)
    requires whole { Whole (heap_of main.now) }
    requires bound { marking.old.bound ≡ roots_start main.now.seat.space }
    requires stand { (at : ℕ) → Contains marking.old.cells at → StandsInHeap (heap_of main.now) at }
    requires seen { SeenLeadToGiven (heap_of main.now) marking.old }
    ensures marked { (at : ℕ) → Contains marking.new.cells at ↔
        IsLiveFrom (heap_of main.now) marking.old.cells at }
    ensures once { AllPairs (λ at other. at ≢ other) marking.new.cells }
    ensures maps { (at : ℕ) → Contains marking.new.maps at ↔
        (IsLiveFrom (heap_of main.now) marking.old.cells at × IsWeakCellAt (heap_of main.now) at) }
    ensures maps_once { AllPairs (λ at other. at ≢ other) marking.new.maps }
    ensures none_seen { marking.new.seen ≡ [] }
    ensures bound { marking.new.bound ≡ marking.old.bound }
{
    let seen = marking.seen;
    marking.seen = 0;
    marking.maps.clear();
    marking.waiting.clear();
    mark_roots(main, &mut marking.cells);
    visit_seen(
        main,
        &mut marking.cells,
        &mut marking.maps,
        &mut marking.waiting,
        seen,
    );
    visit_all(
        main,
        &mut marking.cells,
        &mut marking.maps,
        &mut marking.waiting,
        seen,
    );
}

/// Marks exactly the live cells, and lists the weak maps among them. What an earlier marking found is
/// forgotten.
pub fn mark_live(main: &Main, marking: &mut Marking)
    requires whole { Whole (heap_of main.now) }
    requires bound { marking.old.bound ≡ roots_start main.now.seat.space }
    ensures marked { (at : ℕ) → Contains marking.new.cells at ↔ IsLiveAt (heap_of main.now) at }
    ensures once { AllPairs (λ at other. at ≢ other) marking.new.cells }
    ensures maps { (at : ℕ) → Contains marking.new.maps at ↔
        (IsLiveAt (heap_of main.now) at × IsWeakCellAt (heap_of main.now) at) }
    ensures maps_once { AllPairs (λ at other. at ≢ other) marking.new.maps }
    ensures bound { marking.new.bound ≡ marking.old.bound }
{
    marking.begin();
    mark_given(main, marking);
}
