//! The calls on the entries of a weak map.
ghost use Rattle.std.specs.Prelude.{ℕ, List};
ghost use Rattle.object_graph.specs.declared.value.Value.{Value as GraphValue};
ghost use Rattle.object_graph.specs.Graphs.{Graph, WeakObject};
ghost use Rattle.heap_model.specs.Kinds.{Pair};
ghost use Rattle.heap_model.specs.Slots.{reference_word};
ghost use Rattle.write_barrier.specs.MutatorState.{MainShows, heap_of};
ghost use Rattle.object_cells.specs.HeldValues.{IsValueHeld};
ghost use Rattle.ephemeron_table.specs.WeakObjects.{IsKeyAt, IsShownPutting, IsWeakAt};
ghost use Rattle.weak_pairs.specs.Tables as tables;
ghost use Rattle.ephemeron_table.specs.Probes.{EndsNew, IsTableAt};
ghost use Rattle.ephemeron_table.specs.EntryChanges.{PutsEntry};
ghost use Rattle.weak_pairs.specs.Pairs.{HasPairsAt};
ghost use Rattle.ephemeron_table.specs.PairChanges.{PutsBoth, PutsPair};

use crate::adding::{put_free, put_grown};
use crate::probing::{End, probe};
use crate::replacing::put_there;
use crate::stop::TableStop;
use crate::table::{number_at, table_of};
use handle_roots::Held;
use heap_model::cells::COUNT;
use object_graph::limits::ENTRIES_MOST;
use tagged_word::Word;
use weak_pairs::Table;
use write_barrier::Main;

/// Puts the entry of a key that is new: at the place where probing for it ended, or in a table that
/// is made anew.
fn put_new(
    main: &mut Main,
    map: u32,
    table: Table,
    place: Option<u32>,
    key: u32,
    value: Held,
) -> Result<(), TableStop>
    requires shown { IsShownPutting main.old map key value }
    requires table { IsTableAt (heap_of main.old) map table }
    requires ends { let number = tables.number_at (heap_of main.old) key in
        EndsNew (heap_of main.old) table number (reference_word key) place }
    ensures { (graph : Graph) (weak : WeakObject) (number : ℕ) (what : GraphValue)
        → MainShows main.old graph → IsWeakAt main.old graph map weak
        → IsKeyAt main.old graph key number → IsValueHeld main.old graph value what
        → PutsBoth main.old main.new graph map key weak number value what result }
{
    main.addresses_fit();
    let count = main.slot(map, COUNT) as u32;
    if count >= ENTRIES_MOST {
        return Err(TableStop::TableFull { entries: count });
    }
    match place {
        Some(at) => {
            if 2 * (count + 1) <= table.capacity {
                put_free(main, map, count, table, at, key, value)
            } else {
                put_grown(main, map, count, table, key, value)
            }
        }
        None => put_grown(main, map, count, table, key, value),
    }
}

/// Gives the entry of the key in a weak map the value. Both are named by the addresses of their
/// cells. A table is made where the key is new and the map has none, or where twice the filled pairs
/// with this one would be more than the table has.
///
/// # Errors
/// The key is new and 256 pairs of the map's table are filled, or more, also such whose keys can no
/// longer be reached; there is no room for a table or a box that the entry needs. In this order;
/// nothing has changed.
#[inline(always)]
pub fn put(main: &mut Main, map: u32, key: u32, value: Held) -> Result<(), TableStop>
    requires shown { IsShownPutting main.old map key value }
    ensures entry { (graph : Graph) (weak : WeakObject) (number : ℕ) (what : GraphValue)
        → MainShows main.old graph → IsWeakAt main.old graph map weak
        → IsKeyAt main.old graph key number → IsValueHeld main.old graph value what
        → PutsEntry main.old main.new graph map key weak number what result }
    ensures pairs { (before : List Pair) → HasPairsAt (heap_of main.old) map before
        → PutsPair main.old main.new map key value before result }
{
    main.addresses_fit();
    let table = table_of(main, map);
    match probe(main, table, number_at(main, key), Word::reference(key)) {
        End::Key(place) => put_there(main, table, place, value),
        End::Free(place) => put_new(main, map, table, Some(place), key, value),
        End::Nowhere => put_new(main, map, table, None, key, value),
    }
}
