//! The stores beside objects, and the room for new ones.
ghost use Rattle.std.specs.Prelude.{◌≡◌, ◌+◌, ◌<◌, ◌≤◌, OnOk, IfOk, IfErr};
ghost use Rattle.tagged_word.specs.Cells.{store_head, store_slot, cell_words_most};
ghost use Rattle.page_space.specs.Extents.{layouts_start, marks_start};
ghost use Rattle.nursery.specs.Young.{HasRoom};
ghost use Rattle.word_store.specs.Copies.{AreDisjoint};
ghost use Rattle.write_barrier.specs.Seats.{heap_words};
ghost use Rattle.mark_world.specs.declared.event.Event.TheVariants as event;
ghost use Rattle.heap_model.specs.Remembered.{Touch};
ghost use Rattle.heap_model.specs.Slots.{reference_word};
ghost use Rattle.heap_model.specs.Wholeness.{Whole};
ghost use Rattle.write_barrier.specs.Marking.{MayPut};
ghost use Rattle.write_barrier.specs.MutatorState.{heap_of, IsTied, reserved};
ghost use Rattle.write_barrier.specs.Recording.{Touches, touched_one, touched_then};
ghost use Rattle.write_barrier.specs.Storing.{IsMadeYoung, StoresOn};
ghost use Rattle.object_cells.specs.Contents.{next_at};
ghost use Rattle.object_cells.specs.Made.{HasStoreSlot, IsStoreAt, PutsWords, RefusesRoom};
ghost use Rattle.object_cells.specs.Made.{begun_store, store_touch, with_store};

use crate::formats::fill_store;
use tagged_word::Word;
use tagged_word::cell::{LENGTH, STORE_HEAD, STORE_SLOT};
use write_barrier::{Main, NoRoom};

/// A store beside an object: where it stands, and how many slots it has. One of no slots may stand
/// for none.
#[derive(Clone, Copy)]
pub struct Store {
    /// The address of its cell.
    pub at: u32,
    /// How many slots it has.
    pub capacity: u32,
}

/// The store beside the object at an address.
pub fn store_of(main: &Main, object: u32) -> Store
    requires whole { Whole (heap_of main.now) }
    requires there { HasStoreSlot (heap_of main.now) object }
    ensures { IsStoreAt (heap_of main.now) object result }
{
    main.addresses_fit();
    match Word(main.slot(object, STORE_SLOT)).address() {
        Some(at) => Store {
            at,
            capacity: main.slot(at, LENGTH) as u32,
        },
        None => Store { at: 0, capacity: 0 },
    }
}

/// So many words that were not used, of eden or of what is granted; where none are asked for, any
/// address.
///
/// # Errors
/// There is no room for them; nothing has changed.
pub fn room_for(main: &mut Main, need: u32) -> Result<u32, NoRoom>
    requires tied { IsTied main.old }
    requires few { need ≤ cell_words_most }
    ensures at { IfOk result (λ at. 0 < need → at ≡ next_at main.old) }
    ensures reserved { OnOk result (main.new ≡ reserved main.old need) }
    ensures room { OnOk result (HasRoom main.old.young need) }
    ensures refused { IfErr result (RefusesRoom main.old main.new need) }
{
    main.used_fits();
    if need == 0 {
        return Ok(0);
    }
    let run = main.reserve(need)?;
    Ok(run.at)
}

/// Makes the words at an address a store of so many slots, which is no object's. The slots of
/// another one go to it, and holes stand behind them.
pub fn begin_store(main: &mut Main, store: Store, capacity: u32, at: u32)
    requires young { IsMadeYoung main.old at }
    requires more { store.capacity ≤ capacity }
    requires few { store_head + store.capacity ≤ cell_words_most }
    requires within { at + (store_head + capacity) ≤ layouts_start main.old.seat.space }
    requires other { store.at + (store_head + store.capacity) ≤ marks_start main.old.seat.space }
    requires apart { AreDisjoint (store.at + store_head) (at + store_head) store.capacity }
    ensures puts { let words = heap_words main.old.seat in
        PutsWords main.old main.new (begun_store words store capacity at) }
    ensures touches { Touches main.old main.new (store_touch capacity at) }
    ensures stores { StoresOn main.old main.new }
    ensures cycle { main.new.cycle ≡ main.old.cycle }
{
    main.addresses_fit();
    fill_store(main, at, capacity);
    main.copy_slots(store.at + STORE_HEAD, at + STORE_HEAD, store.capacity);
}

/// Makes the words at an address a store of so many slots in place of another one of an object. The
/// slots of the other go to it, and holes stand behind them.
pub fn make_store(main: &mut Main, object: u32, store: Store, capacity: u32, at: u32)
    requires young { IsMadeYoung main.old at }
    requires more { store.capacity ≤ capacity }
    requires few { store_head + store.capacity ≤ cell_words_most }
    requires within { at + (store_head + capacity) ≤ layouts_start main.old.seat.space }
    requires other { store.at + (store_head + store.capacity) ≤ marks_start main.old.seat.space }
    requires named { object + store_slot < layouts_start main.old.seat.space }
    requires may { let slot = object + store_slot in
        MayPut main.old slot (event.StoreSlot slot (reference_word at)) }
    requires apart { AreDisjoint (store.at + store_head) (at + store_head) store.capacity }
    ensures puts { let words = heap_words main.old.seat in
        PutsWords main.old main.new (with_store words object store capacity at) }
    ensures touches { let named = touched_one Touch.Stored (object + store_slot) in
        Touches main.old main.new (touched_then (store_touch capacity at) named) }
    ensures stores { StoresOn main.old main.new }
{
    begin_store(main, store, capacity, at);
    // There are as many words as addresses before the marks.
    main.addresses_fit();
    main.store(object, STORE_SLOT, Word::reference(at));
}
