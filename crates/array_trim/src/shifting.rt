//! The call `shift`.
ghost use Rattle.std.specs.Prelude.{◌≤◌};
ghost use Rattle.object_graph.specs.Graphs.{Graph, ListObject};
ghost use Rattle.write_barrier.specs.MutatorState.{MainShows};
ghost use Rattle.object_cells.specs.ListObjects.{IsListAt, IsListReady, IsShownList};
ghost use Rattle.array_trim.specs.TrimSteps.{MayTrim};
ghost use Rattle.array_trim.specs.TrimWords.{PutsShifted};
ghost use Rattle.array_trim.specs.Trims.{ShiftsElements};

use crate::laws::laws_of_trims;
use heap_model::cells::COUNT;
use object_cells::{Range, STORE, checked_index, count_of, store_of};
use tagged_word::Word;
use tagged_word::cell::{LENGTH, STORE_SLOT};
use write_barrier::Main;

/// The store of the list begins so many words later. The words before it are free.
fn shift_store(main: &mut Main, list: u32, count: u32, gone: u32)
    requires ready { IsListReady main.old list count }
    requires may { MayTrim main.old list }
    requires some { 1 ≤ gone }
    requires few { gone ≤ count }
    ensures { PutsShifted main.old main.new list count gone }
{
    main.addresses_fit();
    let store = store_of(main, list);
    let start = store.at + gone;
    // Marking may not read the store while it moves, and is to find the one that begins in it before a slot refers
    // to that: the other way round it could take words of the old one for slots, or lose the new one.
    main.blacken(store.at);
    main.publish(start);
    main.set_header(start, STORE);
    main.write_slot(start, LENGTH, (store.capacity - gone) as u64);
    main.store(list, STORE_SLOT, Word::reference(start));
    main.write_slot(list, COUNT, (count - gone) as u64);
    main.put_free_cell(store.at, gone);
}

/// Takes the first `n` elements out of the list at an address. Its store begins `n` words later; no
/// word of an element that stays is written. By 0 nothing changes.
///
/// # Errors
/// The number is below 0, or over the length; nothing has changed.
pub fn shift(main: &mut Main, list: u32, n: i64) -> Result<(), Range>
    requires { IsShownList main.old list }
    ensures { (graph : Graph) (one : ListObject) → MainShows main.old graph
        → IsListAt main.old graph list one → ShiftsElements main.old main.new graph list one n result }
{
    main.addresses_fit();
    laws_of_trims();
    let count = count_of(main, list);
    let Some(gone) = checked_index(count + 1, n) else {
        return Err(Range);
    };
    if gone != 0 {
        shift_store(main, list, count, gone);
    }
    Ok(())
}
