//! The call `delete`.
ghost use Rattle.std.specs.Prelude.{ℕ, List};
ghost use Rattle.object_graph.specs.Graphs.{Graph, WeakObject};
ghost use Rattle.heap_model.specs.Kinds.{Pair};
ghost use Rattle.write_barrier.specs.MutatorState.{MainShows, heap_of};
ghost use Rattle.ephemeron_table.specs.WeakObjects.{IsKeyAt, IsShownKey, IsWeakAt};
ghost use Rattle.ephemeron_table.specs.EntryChanges.{DeletesEntry};
ghost use Rattle.weak_pairs.specs.Pairs.{HasPairsAt};
ghost use Rattle.ephemeron_table.specs.PairChanges.{DeletesPair};

use crate::laws::{laws_of_entries, laws_of_pairs};
use crate::probing::{End, probe};
use crate::removing::remove_pair;
use crate::table::{number_at, table_of};
use tagged_word::Word;
use write_barrier::Main;

/// Takes the entry of the key out of a weak map. Entries that probing would no longer find move back,
/// so that no pair is marked as deleted. Nothing happens where there is none.
pub fn delete(main: &mut Main, map: u32, key: u32)
    requires shown { IsShownKey main.old map key }
    ensures entry { (graph : Graph) (weak : WeakObject) (number : ℕ) → MainShows main.old graph
        → IsWeakAt main.old graph map weak → IsKeyAt main.old graph key number
        → DeletesEntry main.old main.new graph map weak number }
    ensures pairs { (before : List Pair) → HasPairsAt (heap_of main.old) map before
        → DeletesPair main.old main.new map key before }
{
    main.addresses_fit();
    laws_of_pairs();
    laws_of_entries();
    let table = table_of(main, map);
    match probe(main, table, number_at(main, key), Word::reference(key)) {
        End::Key(place) => remove_pair(main, map, table, place),
        End::Free(_) => (),
        End::Nowhere => (),
    }
}
