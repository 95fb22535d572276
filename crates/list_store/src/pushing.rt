//! The call `push`.
ghost use Rattle.std.specs.Prelude.{◌≡◌, ◌+◌, ◌<◌, OnOk, IfErr};
ghost use Rattle.tagged_word.specs.Cells.{store_head};
ghost use Rattle.object_graph.specs.declared.value.Value.{Value as GraphValue};
ghost use Rattle.object_graph.specs.Graphs.{Graph, ListObject};
ghost use Rattle.object_graph.specs.Meaning.{list_most};
ghost use Rattle.write_barrier.specs.MutatorState.{heap_of, MainShows};
ghost use Rattle.object_cells.specs.HeldValues.{IsValueHeld};
ghost use Rattle.object_cells.specs.ListObjects.{IsListAt, IsListReady};
ghost use Rattle.object_cells.specs.Made.{RefusesRoom, content_need, store_content, is_wide_held};
ghost use Rattle.heap_model.specs.Needs.{box_need, capacity_at, grown_list, list_store_need};
ghost use Rattle.list_store.specs.Pushes.{CanChange, MayPush, PushesToStore, PushesToNewStore};
ghost use Rattle.list_store.specs.Pushes.{PushesAt};
ghost use Rattle.list_store.specs.ListChanges.{IsShownSetting, PushesElement};

use crate::elements::grown;
use crate::stop::PushStop;
use handle_roots::Held;
use heap_model::cells::COUNT;
use object_cells::{
    Store, begin_store, boxed_word, content_for, count_of, need_of, room_for, store_of,
};
use object_graph::limits::ELEMENTS_MOST;
use tagged_word::Word;
use tagged_word::cell::{STORE_HEAD, STORE_SLOT};
use write_barrier::{Main, NoRoom};

/// The value comes to the next slot of the list's store.
fn push_to_store(
    main: &mut Main,
    list: u32,
    count: u32,
    value: Held,
    store: Store,
) -> Result<(), NoRoom>
    requires can { CanChange main.old list count store }
    requires may { MayPush main.old list value }
    requires room { count < store.capacity }
    ensures ok { OnOk result (PushesToStore main.old main.new list count value store) }
    ensures refused { let need = content_need (store_content value) in
        IfErr result (RefusesRoom main.old main.new need) }
{
    main.addresses_fit();
    let content = content_for(value);
    let at = room_for(main, need_of(content))?;
    let word = boxed_word(main, content, at);
    main.store(store.at, STORE_HEAD + count, word);
    main.write_slot(list, COUNT, (count + 1) as u64);
    Ok(())
}

/// The value comes to the next slot of a store that takes the place of one that is full.
fn push_to_new_store(
    main: &mut Main,
    list: u32,
    count: u32,
    value: Held,
    store: Store,
) -> Result<(), NoRoom>
    requires can { CanChange main.old list count store }
    requires may { MayPush main.old list value }
    requires full { count ≡ store.capacity }
    requires few { count < list_most }
    ensures ok { OnOk result (PushesToNewStore main.old main.new list count value store) }
    ensures refused { let words = store_head + grown_list count in
        let need = words + content_need (store_content value) in
        IfErr result (RefusesRoom main.old main.new need) }
{
    main.addresses_fit();
    let content = content_for(value);
    let capacity = grown(count);
    let words = STORE_HEAD + capacity;
    let at = room_for(main, words + need_of(content))?;
    // The list refers to the new store once it has the element.
    begin_store(main, store, capacity, at);
    let word = boxed_word(main, content, at + words);
    main.store(at, STORE_HEAD + count, word);
    main.store(list, STORE_SLOT, Word::reference(at));
    main.write_slot(list, COUNT, (count + 1) as u64);
    Ok(())
}

/// The value comes behind the elements of the list, to its store or to a new one.
fn push_value(main: &mut Main, list: u32, count: u32, value: Held) -> Result<(), NoRoom>
    requires ready { IsListReady main.old list count }
    requires may { MayPush main.old list value }
    requires few { count < list_most }
    ensures ok { OnOk result (PushesAt main.old main.new list count value) }
    ensures refused { let store = list_store_need (capacity_at (heap_of main.old) list) count in
        let need = store + box_need (is_wide_held value) in
        IfErr result (RefusesRoom main.old main.new need) }
{
    let store = store_of(main, list);
    if count < store.capacity {
        push_to_store(main, list, count, value, store)
    } else {
        push_to_new_store(main, list, count, value, store)
    }
}

/// Gives the list at an address the value as its last element. Its store is made anew where it is
/// full or absent, with twice as many slots, at least 4 and at most 1,000.
///
/// # Errors
/// The list has 1,000 elements; there is no room for a store or a box that the element needs. In
/// this order; nothing has changed.
#[inline(always)]
pub fn push(main: &mut Main, list: u32, value: Held) -> Result<(), PushStop>
    requires { IsShownSetting main.old list value }
    ensures { (graph : Graph) (one : ListObject) (what : GraphValue) → MainShows main.old graph
        → IsListAt main.old graph list one → IsValueHeld main.old graph value what
        → PushesElement main.old main.new graph list one what result }
{
    main.addresses_fit();
    let count = count_of(main, list);
    if count >= ELEMENTS_MOST {
        return Err(PushStop::ListFull);
    }
    match push_value(main, list, count, value) {
        Ok(()) => Ok(()),
        Err(no_room) => Err(PushStop::Full(no_room)),
    }
}
