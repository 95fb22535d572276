//! How the entry of a key that is new comes to the table that a map has, or to one that is made.
ghost use Rattle.std.specs.Prelude.{◌≡◌, ℕ, ◌+◌, ◌*◌, ◌<◌, ◌≤◌, None};
ghost use Rattle.page_space.specs.Extents.{marks_start};
ghost use Rattle.object_graph.specs.declared.value.Value.{Value as GraphValue};
ghost use Rattle.object_graph.specs.Graphs.{Graph, WeakObject};
ghost use Rattle.object_graph.specs.Objects.{entry_value};
ghost use Rattle.object_graph.specs.Meaning.{weak_most};
ghost use Rattle.heap_model.specs.Kinds.{count_offset};
ghost use Rattle.heap_model.specs.Needs.{count_at};
ghost use Rattle.heap_model.specs.Slots.{hole_word, reference_word};
ghost use Rattle.write_barrier.specs.MutatorState.{heap_of, IsTied, MainShows};
ghost use Rattle.write_barrier.specs.Storing.{IsMadeYoung};
ghost use Rattle.object_cells.specs.Contents.{next_at};
ghost use Rattle.object_cells.specs.HeldValues.{IsValueHeld};
ghost use Rattle.ephemeron_table.specs.MapClaims.{MayPutMap, MayPutPairs};
ghost use Rattle.ephemeron_table.specs.WeakObjects.{IsKeyAt, IsShownPutting, IsWeakAt};
ghost use Rattle.weak_pairs.specs.Probes.{ProbesTo};
ghost use Rattle.ephemeron_table.specs.Probes.{IsTableAt};
ghost use Rattle.weak_pairs.specs.Tables.{TableIsWithin, key_in};
ghost use Rattle.ephemeron_table.specs.PairChanges.{PutsBoth};

use crate::growing::put_in_new_table;
use crate::laws::laws_of_entries;
use crate::putting::put_in_table;
use crate::stop::TableStop;
use handle_roots::Held;
use weak_pairs::Table;
use write_barrier::{Main, laws_of_values};

/// Puts the entry of a key that is new at the free place of the map's table where probing for it
/// ended. With it no more than half of the pairs are filled.
///
/// # Errors
/// There is no room for a box; nothing has changed.
pub(crate) fn put_free(
    main: &mut Main,
    map: u32,
    count: u32,
    table: Table,
    place: u32,
    key: u32,
    value: Held,
) -> Result<(), TableStop>
    requires may { MayPutPairs main.old table }
    requires counts { MayPutMap main.old map }
    requires young { IsMadeYoung main.old (next_at main.old) }
    requires tied { IsTied main.old }
    requires within { TableIsWithin (heap_of main.old) table }
    requires place { place < table.capacity }
    requires few { count < weak_most }
    requires half { 2 * (count + 1) ≤ table.capacity }
    requires map { map + count_offset < marks_start main.old.seat.space }
    ensures { (graph : Graph) (weak : WeakObject) (number : ℕ) (what : GraphValue)
        → MainShows main.old graph → IsWeakAt main.old graph map weak
        → IsKeyAt main.old graph key number → IsValueHeld main.old graph value what
        → IsTableAt (heap_of main.old) map table → count_at (heap_of main.old) map ≡ count
        → ProbesTo (heap_of main.old) table number (reference_word key) place
        → key_in (heap_of main.old) table.at place ≡ hole_word
        → PutsBoth main.old main.new graph map key weak number value what result }
{
    main.addresses_fit();
    laws_of_entries();
    laws_of_values();
    put_in_table(main, map, count, table, place, key, value)?;
    Ok(())
}

/// Puts the entry of a key that is new in a table that is made anew.
///
/// # Errors
/// There is no room for the table and a box; nothing has changed.
pub(crate) fn put_grown(
    main: &mut Main,
    map: u32,
    count: u32,
    table: Table,
    key: u32,
    value: Held,
) -> Result<(), TableStop>
    requires shown { IsShownPutting main.old map key value }
    requires table { IsTableAt (heap_of main.old) map table }
    requires counted { count_at (heap_of main.old) map ≡ count }
    requires few { count < weak_most }
    requires over { table.capacity < 2 * (count + 1) }
    ensures { (graph : Graph) (weak : WeakObject) (number : ℕ) (what : GraphValue)
        → MainShows main.old graph → IsWeakAt main.old graph map weak
        → IsKeyAt main.old graph key number → IsValueHeld main.old graph value what
        → entry_value weak.entries number ≡ None
        → PutsBoth main.old main.new graph map key weak number value what result }
{
    main.addresses_fit();
    laws_of_entries();
    laws_of_values();
    put_in_new_table(main, map, count, table, key, value)?;
    Ok(())
}
