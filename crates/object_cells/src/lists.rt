//! What is read of a list's own cell, and what an integer names among its elements.
ghost use Rattle.std.specs.Prelude.{◌≡◌, ◌≤◌};
ghost use Rattle.object_graph.specs.Meaning.{list_most, below};
ghost use Rattle.write_barrier.specs.MutatorState.{heap_of};
ghost use Rattle.heap_model.specs.Needs as needs;
ghost use Rattle.heap_model.specs.Wholeness.{Whole};
ghost use Rattle.object_cells.specs.ListObjects.{IsListCellAt};

use heap_model::cells::COUNT;
use write_barrier::Main;

/// An integer is below 0 or too large: an index that is not below the length, or a number of elements
/// that is over it.
#[derive(Clone, Copy)]
pub struct Range;

/// How many elements the list at an address has: at most 1,000.
pub fn count_of(main: &Main, list: u32) -> u32
    requires whole { Whole (heap_of main.now) }
    requires there { IsListCellAt (heap_of main.now) list }
    ensures counted { result ≡ needs.count_at (heap_of main.now) list }
    ensures few { result ≤ list_most }
{
    main.slot(list, COUNT) as u32
}

/// The number that an integer is, if it is below a count: which of so many elements an index names.
/// There is none where it is below 0, or not below the count.
pub fn checked_index(count: u32, index: i64) -> Option<u32>
    ensures { result ≡ below count index }
{
    if index < 0 {
        return None;
    }
    if index >= count as i64 {
        return None;
    }
    Some(index as u32)
}
