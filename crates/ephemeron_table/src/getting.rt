//! The call `get`.
ghost use Rattle.std.specs.Prelude.{ℕ, ◌+◌, List};
ghost use Rattle.object_graph.specs.Graphs.{Graph, WeakObject};
ghost use Rattle.heap_model.specs.Kinds.{Pair};
ghost use Rattle.write_barrier.specs.MutatorState.{MainShows, heap_of};
ghost use Rattle.ephemeron_table.specs.WeakObjects.{IsKeyAt, IsShownKey, IsWeakAt};
ghost use Rattle.ephemeron_table.specs.EntryChanges.{TellsEntry};
ghost use Rattle.weak_pairs.specs.Pairs.{HasPairsAt};
ghost use Rattle.ephemeron_table.specs.PairChanges.{TellsPairValue};

use crate::probing::{End, probe};
use crate::table::{number_at, table_of};
use handle_roots::Held;
use tagged_word::Word;
use tagged_word::cell::STORE_HEAD;
use write_barrier::{Main, laws_of_values};

/// The value of the key's entry in a weak map; undefined where there is none.
#[inline(always)]
pub fn get(main: &Main, map: u32, key: u32) -> Held
    requires shown { IsShownKey main.now map key }
    ensures entry { (graph : Graph) (weak : WeakObject) (number : ℕ) → MainShows main.now graph
        → IsWeakAt main.now graph map weak → IsKeyAt main.now graph key number
        → TellsEntry main.now weak number result }
    ensures pairs { (pairs : List Pair) → HasPairsAt (heap_of main.now) map pairs
        → TellsPairValue main.now key pairs result }
{
    main.addresses_fit();
    laws_of_values();
    let table = table_of(main, map);
    match probe(main, table, number_at(main, key), Word::reference(key)) {
        End::Key(place) => {
            let word = main.slot(table.at, STORE_HEAD + (2 * place + 1));
            main.value_of_word(Word(word))
        }
        End::Free(_) => Held::Undefined,
        End::Nowhere => Held::Undefined,
    }
}
