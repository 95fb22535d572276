//! How many slots a new store of a list has.
ghost use Rattle.std.specs.Prelude.{◌≡◌, ◌≤◌};
ghost use Rattle.object_graph.specs.Meaning.{list_most};
ghost use Rattle.heap_model.specs.Needs as needs;

use heap_model::cells::FIRST_CAPACITY;
use object_graph::limits::ELEMENTS_MOST;

/// How many slots the store has that takes the place of one that is full of so many elements: twice
/// as many, but at least 4, and no more than a list may have elements.
pub(crate) fn grown(count: u32) -> u32
    requires { count ≤ list_most }
    ensures { result ≡ needs.grown_list count }
{
    ELEMENTS_MOST.min(FIRST_CAPACITY.max(2 * count))
}
