//! The pairs of weak maps whose keys are not marked are taken out, map by map.
ghost use Rattle.std.specs.Prelude.{◌≡◌, ◌≢◌, ◌<◌, ◌+◌, List, [], ◌∷◌, AllPairs, sum_by};
ghost use Rattle.page_space.specs.Extents.{roots_start};
ghost use Rattle.heap_model.specs.Kinds.{Pair};
ghost use Rattle.heap_model.specs.Needs.{count_at};
ghost use Rattle.write_barrier.specs.MutatorState.{MayStore, heap_of, IsTied};
ghost use Rattle.heap_model.specs.Wholeness.{Whole};
ghost use Rattle.weak_pairs.specs.Pairs.{HasPairsAt};
ghost use Rattle.ephemeron_table.specs.Probes.{IsWeakCellAt};
ghost use Rattle.ephemeron_clear.specs.Marked.{IsUnmarkedAt};
ghost use Rattle.ephemeron_clear.specs.Clearing.{AreMaps, Clears, TakesUnmarked};

use crate::search::last_unmarked;
use cell_list::CellList;
use ephemeron_table::{remove_at, table_of};
use write_barrier::Main;

/// Takes the pair at a place, whose key is not marked, out of a weak map's table, and then each such
/// pair below it, going down, and answers how many went. What stands behind such a pair has no other
/// one among it, so a removal moves few, however long the row of those that go is.
fn take_down(main: &mut Main, map: u32, last: u32, marked: &CellList) -> u64
    requires may_store { MayStore main.old }
    requires whole { Whole (heap_of main.old) }
    requires tied { IsTied main.old }
    requires there { IsWeakCellAt (heap_of main.old) map }
    requires bound { marked.now.bound ≡ roots_start main.old.seat.space }
    requires last { (pairs : List Pair) → HasPairsAt (heap_of main.old) map pairs
        → IsUnmarkedAt marked.now.addresses pairs last }
    ensures takes { TakesUnmarked main.old main.new (map ∷ []) marked.now.addresses }
    ensures counted { result + count_at (heap_of main.new) map ≡ count_at (heap_of main.old) map }
    ensures some { 0 < result }
{
    remove_at(main, map, last);
    let mut gone = 1;
    let mut below = last;
    while let Some(place) = last_unmarked(main, map, below, marked) {
        remove_at(main, map, place);
        gone += 1;
        below = place;
    }
    gone
}

/// Takes each pair whose key is not marked out of the table of one weak map, and answers how many went.
/// A pair of the first places that moves back over the end, to the last ones, was not looked at; so it
/// goes down the table again, until it finds none.
fn clear_map(main: &mut Main, map: u32, marked: &CellList) -> u64
    requires may_store { MayStore main.old }
    requires whole { Whole (heap_of main.old) }
    requires tied { IsTied main.old }
    requires there { IsWeakCellAt (heap_of main.old) map }
    requires bound { marked.now.bound ≡ roots_start main.old.seat.space }
    ensures cleared { Clears main.old main.new (map ∷ []) marked.now.addresses }
    ensures counted { result + count_at (heap_of main.new) map ≡ count_at (heap_of main.old) map }
{
    let capacity = table_of(main, map).capacity;
    let mut gone = 0;
    while let Some(last) = last_unmarked(main, map, capacity, marked) {
        gone += take_down(main, map, last, marked);
    }
    gone
}

/// Takes each pair whose key is not marked out of the tables of these weak maps, and answers how many
/// went. The time goes by the places of the tables and by the pairs that move.
pub fn clear(main: &mut Main, maps: &[u32], marked: &CellList) -> u64
    requires may_store { MayStore main.old }
    requires whole { Whole (heap_of main.old) }
    requires tied { IsTied main.old }
    requires maps { AreMaps (heap_of main.old) maps.now }
    requires once { AllPairs (λ map other. map ≢ other) maps.now }
    requires bound { marked.now.bound ≡ roots_start main.old.seat.space }
    ensures cleared { Clears main.old main.new maps.now marked.now.addresses }
    ensures counted { let before = sum_by (count_at (heap_of main.old)) maps.now in
        result + sum_by (count_at (heap_of main.new)) maps.now ≡ before }
{
    main.addresses_fit();
    let mut gone = 0;
    for map in maps {
        gone += clear_map(main, *map, marked);
    }
    gone
}
