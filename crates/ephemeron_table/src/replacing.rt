//! How the value of an entry that is there becomes another.
ghost use Rattle.std.specs.Prelude.{◌≡◌, ℕ, ◌+◌, ◌<◌};
ghost use Rattle.object_graph.specs.declared.value.Value.{Value as GraphValue};
ghost use Rattle.object_graph.specs.Graphs.{Graph, WeakObject};
ghost use Rattle.heap_model.specs.Slots.{reference_word};
ghost use Rattle.write_barrier.specs.MutatorState.{heap_of, IsTied, MainShows};
ghost use Rattle.heap_model.specs.Wholeness.{Whole};
ghost use Rattle.object_cells.specs.Contents.{HoldsSlotWord, filling_at};
ghost use Rattle.object_cells.specs.HeldValues.{IsValueHeld};
ghost use Rattle.object_cells.specs.Made.{store_content};
ghost use Rattle.ephemeron_table.specs.WeakObjects.{IsKeyAt, IsWeakAt};
ghost use Rattle.ephemeron_table.specs.MapClaims.{MayPutBox, MayPutPairs};
ghost use Rattle.ephemeron_table.specs.Probes.{IsTableAt};
ghost use Rattle.weak_pairs.specs.Tables.{TableIsWithin, key_in, value_in, value_offset};
ghost use Rattle.ephemeron_table.specs.PairChanges.{PutsBoth};

use crate::laws::laws_of_entries;
use crate::putting::put_value;
use crate::stop::TableStop;
use handle_roots::Held;
use weak_pairs::Table;
use write_barrier::{Main, laws_of_values};

/// Gives the entry whose key stands at a place of a map's table the value.
///
/// # Errors
/// There is no room for a box; nothing has changed.
pub(crate) fn put_there(
    main: &mut Main,
    table: Table,
    place: u32,
    value: Held,
) -> Result<(), TableStop>
    requires may { MayPutPairs main.old table }
    requires boxed { let slot = table.at + value_offset place in
        MayPutBox main.old (filling_at main.old slot (store_content value)) }
    requires whole { Whole (heap_of main.old) }
    requires tied { IsTied main.old }
    requires within { TableIsWithin (heap_of main.old) table }
    requires place { place < table.capacity }
    requires held { let word = value_in (heap_of main.old) table.at place in
        HoldsSlotWord (heap_of main.old) word (store_content value) }
    ensures { (map key : ℕ) (graph : Graph) (weak : WeakObject) (number : ℕ) (what : GraphValue)
        → MainShows main.old graph → IsWeakAt main.old graph map weak
        → IsKeyAt main.old graph key number → IsValueHeld main.old graph value what
        → IsTableAt (heap_of main.old) map table
        → key_in (heap_of main.old) table.at place ≡ reference_word key
        → PutsBoth main.old main.new graph map key weak number value what result }
{
    main.addresses_fit();
    laws_of_entries();
    laws_of_values();
    put_value(main, table, place, value)?;
    Ok(())
}
