//! The call `put`.
ghost use Rattle.std.specs.Prelude.{◌+◌, ◌<◌};
ghost use Rattle.page_space.specs.Extents.{marks_start};
ghost use Rattle.object_graph.specs.declared.value.Value.{Value as GraphValue};
ghost use Rattle.object_graph.specs.Graphs.{Graph, ListObject};
ghost use Rattle.heap_model.specs.Needs.{word_at};
ghost use Rattle.heap_model.specs.Wholeness.{Whole};
ghost use Rattle.write_barrier.specs.MutatorState.{heap_of, IsTied, MainShows};
ghost use Rattle.object_cells.specs.Contents.{HoldsSlotWord, FillsOrRefuses, filling_at};
ghost use Rattle.object_cells.specs.CycleChanges.{MayFillSlot};
ghost use Rattle.object_cells.specs.HeldValues.{IsValueHeld};
ghost use Rattle.object_cells.specs.ListObjects.{IsListAt};
ghost use Rattle.object_cells.specs.Made.{store_content};
ghost use Rattle.list_store.specs.ListChanges.{IsShownSetting, PutsElement};

use crate::stop::PutStop;
use handle_roots::Held;
use object_cells::{checked_index, content_for, count_of, fill, filling_of, store_of};
use tagged_word::cell::STORE_HEAD;
use write_barrier::{Main, NoRoom};

/// The slot at an offset of a list's store comes to hold the value: a wide one in the box that
/// stands there, or in one that is made.
#[inline(always)]
fn fill_slot(main: &mut Main, store: u32, offset: u32, value: Held) -> Result<(), NoRoom>
    requires whole { Whole (heap_of main.old) }
    requires tied { IsTied main.old }
    requires within { store + offset < marks_start main.old.seat.space }
    requires held { let word = word_at (heap_of main.old) (store + offset) in
        HoldsSlotWord (heap_of main.old) word (store_content value) }
    requires may { let slot = store + offset in
        MayFillSlot main.old slot (filling_at main.old slot (store_content value)) }
    ensures { let content = store_content value in
        FillsOrRefuses main.old main.new (store + offset) content result }
{
    main.addresses_fit();
    let filling = filling_of(main, store + offset, content_for(value))?;
    fill(main, store, offset, filling);
    Ok(())
}

/// Gives the element of the list at an address that an index names the value.
///
/// # Errors
/// The index is below 0, or not below the length; there is no room for a box that the element
/// needs. In this order; nothing has changed.
#[inline(always)]
pub fn put(main: &mut Main, list: u32, index: i64, value: Held) -> Result<(), PutStop>
    requires { IsShownSetting main.old list value }
    ensures { (graph : Graph) (one : ListObject) (what : GraphValue) → MainShows main.old graph
        → IsListAt main.old graph list one → IsValueHeld main.old graph value what
        → PutsElement main.old main.new graph list one index what result }
{
    main.addresses_fit();
    let Some(place) = checked_index(count_of(main, list), index) else {
        return Err(PutStop::Range);
    };
    let store = store_of(main, list);
    match fill_slot(main, store.at, STORE_HEAD + place, value) {
        Ok(()) => Ok(()),
        Err(no_room) => Err(PutStop::Full(no_room)),
    }
}
