//! The call `remove_at`.
ghost use Rattle.std.specs.Prelude.{List};
ghost use Rattle.heap_model.specs.Kinds.{Pair};
ghost use Rattle.write_barrier.specs.MutatorState.{MayStore, heap_of, IsTied};
ghost use Rattle.heap_model.specs.Wholeness.{Whole};
ghost use Rattle.weak_pairs.specs.Pairs.{HasPairsAt, IsFilledAt};
ghost use Rattle.ephemeron_table.specs.Pairs.{RemovesPair};

use crate::laws::laws_of_pairs;
use crate::removing::remove_pair;
use crate::table::table_of;
use write_barrier::Main;

/// Takes the pair at a place out of the table of a weak map. Where some pair was free, what then
/// stands below the place stood below it before, so one pass upwards that looks again where it took
/// one out clears a table.
pub fn remove_at(main: &mut Main, map: u32, place: u32)
    requires may_store { MayStore main.old }
    requires whole { Whole (heap_of main.old) }
    requires tied { IsTied main.old }
    requires there { (pairs : List Pair) × (pair : Pair)
        × HasPairsAt (heap_of main.old) map pairs × IsFilledAt pairs place pair }
    ensures { (before : List Pair) → HasPairsAt (heap_of main.old) map before
        → RemovesPair main.old main.new map place before }
{
    main.addresses_fit();
    laws_of_pairs();
    let table = table_of(main, map);
    remove_pair(main, map, table, place);
}
