//! Which pair of a weak map's table is the last whose key is not marked.
ghost use Rattle.std.specs.Prelude.{◌≡◌, ℕ, ◌<◌, List, Some, IsTrue, IsFalse, Contains};
ghost use Rattle.tagged_word.specs.Readings.{reference_in};
ghost use Rattle.page_space.specs.Extents.{roots_start};
ghost use Rattle.heap_model.specs.Kinds.{Pair};
ghost use Rattle.write_barrier.specs.MutatorState.{heap_of};
ghost use Rattle.heap_model.specs.Wholeness.{Whole};
ghost use Rattle.weak_pairs.specs.Pairs.{HasPairsAt};
ghost use Rattle.weak_pairs.specs.Tables.{TableIsWithin, key_in};
ghost use Rattle.ephemeron_table.specs.Probes.{IsWeakCellAt};
ghost use Rattle.ephemeron_clear.specs.Marked.{FindsUnmarked, IsUnmarkedWord};

use cell_list::CellList;
use ephemeron_table::{key_of, table_of};
use weak_pairs::Table;
use write_barrier::Main;

/// Whether the key of a pair is a cell that is not marked.
fn has_unmarked_key(main: &Main, table: Table, place: u32, marked: &CellList) -> bool
    requires within { TableIsWithin (heap_of main.now) table }
    requires place { place < table.capacity }
    requires below { (at : ℕ) → reference_in (key_in (heap_of main.now) table.at place) ≡ Some at
        → at < marked.now.bound }
    ensures unmarked { IsTrue result
        → IsUnmarkedWord marked.now.addresses (key_in (heap_of main.now) table.at place) }
    ensures marked { IsFalse result
        → (at : ℕ) → reference_in (key_in (heap_of main.now) table.at place) ≡ Some at
        → Contains marked.now.addresses at }
{
    match key_of(main, table, place).address() {
        Some(key) => !marked.contains(key),
        None => false,
    }
}

/// The last place of a map's table, below one, where the key of a pair is not marked.
pub(crate) fn last_unmarked(main: &Main, map: u32, below: u32, marked: &CellList) -> Option<u32>
    requires whole { Whole (heap_of main.now) }
    requires there { IsWeakCellAt (heap_of main.now) map }
    requires bound { marked.now.bound ≡ roots_start main.now.seat.space }
    ensures { (pairs : List Pair) → HasPairsAt (heap_of main.now) map pairs
        → FindsUnmarked marked.now.addresses pairs below result }
{
    main.addresses_fit();
    let table = table_of(main, map);
    for place in (0..below.min(table.capacity)).rev() {
        if has_unmarked_key(main, table, place, marked) {
            return Some(place);
        }
    }
    None
}
