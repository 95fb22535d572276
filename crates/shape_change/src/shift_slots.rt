//! Slots that move down by one, where a field before them is taken out.
ghost use Rattle.std.specs.Prelude.{◌≡◌, ◌+◌, ◌-◌, ◌<◌, ◌≤◌, true, length, slice_get, slice_set};
ghost use Rattle.tagged_word.specs.Cells.{plain_head, store_head};
ghost use Rattle.page_space.specs.Extents.{layouts_start, marks_start};
ghost use Rattle.shape_tree.specs.Shapes.{IsPathShape, shape_path};
ghost use Rattle.write_barrier.specs.Seats.{heap_words};
ghost use Rattle.heap_model.specs.Slots.{hole_word};
ghost use Rattle.heap_model.specs.Remembered.{Touch};
ghost use Rattle.write_barrier.specs.Recording.{Touches, touched_one};
ghost use Rattle.shape_change.specs.Shifts.{KeepsRest, MovesDown, ClosesGap, ClosesSlots, SlotsWithin};
ghost use Rattle.shape_change.specs.Shifts.{beside_touch, field_touch, own_touch};
ghost use Rattle.shape_change.specs.Shifts.{MayChangeStore, MayCloseSlots, MayMoveDown, MayRefill, fields_beside};
ghost use Rattle.write_barrier.specs.Storing.{MayHold, StoresOn};
ghost use Rattle.write_barrier.specs.SureStores.{StoresSurely};

use object_graph::Rep;
use tagged_word::cell::{PLAIN_HEAD, STORE_HEAD};
use tagged_word::{Word, odd};
use write_barrier::Main;

/// Puts a word in the in-object slot of a field: as it is where the field is wide, and else as a
/// value. No other word changes.
fn put_own(main: &mut Main, object: u32, shape: u32, slot: u32, word: u64)
    requires may { MayRefill main.old object (shape_path main.old.paths shape).cap }
    requires held { let path = shape_path main.old.paths shape in
        field_touch true (slice_get path.fields slot) ≡ Touch.Stored → MayHold main.old word }
    requires path { IsPathShape main.old.paths shape }
    requires field { slot < length (shape_path main.old.paths shape).fields }
    requires own { slot < (shape_path main.old.paths shape).cap }
    requires laid { object + (plain_head + slot) < layouts_start main.old.seat.space }
    requires within { object + (plain_head + slot) < marks_start main.old.seat.space }
    ensures stores { StoresOn main.old main.new }
    ensures surely { let path = shape_path main.old.paths shape in
        let how = field_touch true (slice_get path.fields slot) in
        StoresSurely main.new (touched_one how (object + (plain_head + slot))) }
    ensures rest { KeepsRest main.old main.new }
    ensures touches { let path = shape_path main.old.paths shape in
        let how = field_touch true (slice_get path.fields slot) in
        Touches main.old main.new (touched_one how (object + (plain_head + slot))) }
    ensures heap { let words = heap_words main.old.seat in
        heap_words main.new.seat ≡ slice_set words (object + (plain_head + slot)) word }
{
    main.addresses_fit();
    match main.shapes().field(shape, slot).rep {
        Rep::Wide => main.write_slot(object, PLAIN_HEAD + slot, word),
        Rep::Small => main.store(object, PLAIN_HEAD + slot, Word(word)),
        Rep::Tagged => main.store(object, PLAIN_HEAD + slot, Word(word)),
    }
}

/// Moves in-object slots down by one: those from one slot up to another become the next.
fn move_own(main: &mut Main, object: u32, shape: u32, from: u32, to: u32)
    requires may { MayRefill main.old object (shape_path main.old.paths shape).cap }
    requires held { let at = object + (plain_head + from) in
        let how = own_touch (shape_path main.old.paths shape) object in
        MayMoveDown main.old at (object + (plain_head + to)) how }
    requires path { IsPathShape main.old.paths shape }
    requires fields { to ≤ length (shape_path main.old.paths shape).fields }
    requires own { to ≤ (shape_path main.old.paths shape).cap }
    requires order { from ≤ to }
    requires laid { object + (plain_head + to) < layouts_start main.old.seat.space }
    requires within { object + (plain_head + to) < marks_start main.old.seat.space }
    ensures stores { StoresOn main.old main.new }
    ensures moves { let at = object + (plain_head + from) in
        let how = own_touch (shape_path main.old.paths shape) object in
        MovesDown main.old main.new at (object + (plain_head + to)) how }
{
    main.addresses_fit();
    for slot in from..to {
        let word = main.slot(object, PLAIN_HEAD + (slot + 1));
        put_own(main, object, shape, slot, word);
    }
}

/// Moves the slots of a property store down by one: those from one slot up to another become the
/// next.
fn move_beside(main: &mut Main, store: u32, from: u32, to: u32)
    requires may { MayChangeStore main.old store to }
    requires held { let at = store + (store_head + from) in
        MayMoveDown main.old at (store + (store_head + to)) beside_touch }
    requires order { from ≤ to }
    requires laid { store + (store_head + to) < layouts_start main.old.seat.space }
    requires within { store + (store_head + to) < marks_start main.old.seat.space }
    ensures stores { StoresOn main.old main.new }
    ensures moves { let at = store + (store_head + from) in
        MovesDown main.old main.new at (store + (store_head + to)) beside_touch }
{
    main.addresses_fit();
    for slot in from..to {
        let word = main.slot(store, STORE_HEAD + (slot + 1));
        main.store(store, STORE_HEAD + slot, Word(word));
    }
}

/// Moves in-object slots down by one, and puts a word in the last, which is that of a field.
fn draw_in(main: &mut Main, object: u32, shape: u32, from: u32, last: u32, word: u64)
    requires may { MayRefill main.old object (shape_path main.old.paths shape).cap }
    requires held { let at = object + (plain_head + from) in
        let how = own_touch (shape_path main.old.paths shape) object in
        MayMoveDown main.old at (object + (plain_head + last)) how }
    requires drawn { let path = shape_path main.old.paths shape in
        field_touch true (slice_get path.fields last) ≡ Touch.Stored → MayHold main.old word }
    requires path { IsPathShape main.old.paths shape }
    requires fields { last < length (shape_path main.old.paths shape).fields }
    requires own { last < (shape_path main.old.paths shape).cap }
    requires order { from ≤ last }
    requires laid { object + (plain_head + last) < layouts_start main.old.seat.space }
    requires within { object + (plain_head + last) < marks_start main.old.seat.space }
    ensures stores { StoresOn main.old main.new }
    ensures closes { let at = object + (plain_head + from) in
        let how = own_touch (shape_path main.old.paths shape) object in
        ClosesGap main.old main.new at (object + (plain_head + last)) word how }
{
    move_own(main, object, shape, from, last);
    // The table has a word for each address.
    main.addresses_fit();
    put_own(main, object, shape, last, word);
}

/// Moves the in-object slots of the fields of a shape down by one, from one slot on; the slot
/// behind them holds nothing then.
pub(crate) fn close_own(main: &mut Main, object: u32, shape: u32, from: u32)
    requires may { MayRefill main.old object (shape_path main.old.paths shape).cap }
    requires held { let last = length (shape_path main.old.paths shape).fields in
        let at = object + (plain_head + from) in
        let how = own_touch (shape_path main.old.paths shape) object in
        MayMoveDown main.old at (object + (plain_head + last)) how }
    requires path { IsPathShape main.old.paths shape }
    requires order { from ≤ length (shape_path main.old.paths shape).fields }
    requires own { let path = shape_path main.old.paths shape in
        length path.fields < path.cap }
    requires laid { let last = length (shape_path main.old.paths shape).fields in
        object + (plain_head + last) < layouts_start main.old.seat.space }
    requires within { let last = length (shape_path main.old.paths shape).fields in
        object + (plain_head + last) < marks_start main.old.seat.space }
    ensures stores { StoresOn main.old main.new }
    ensures closes { let last = length (shape_path main.old.paths shape).fields in
        let at = object + (plain_head + from) in
        let how = own_touch (shape_path main.old.paths shape) object in
        ClosesGap main.old main.new at (object + (plain_head + last)) hole_word how }
{
    let last = main.shapes().fields(shape);
    move_own(main, object, shape, from, last);
    main.addresses_fit();
    main.write_slot(object, PLAIN_HEAD + last, Word::odd(odd::HOLE).0);
}

/// Moves the slots of a property store down by one; the last holds nothing then.
fn close_beside(main: &mut Main, store: u32, from: u32, last: u32)
    requires may { MayChangeStore main.old store (last + 1) }
    requires held { let at = store + (store_head + from) in
        MayMoveDown main.old at (store + (store_head + last)) beside_touch }
    requires order { from ≤ last }
    requires laid { store + (store_head + last) < layouts_start main.old.seat.space }
    requires within { store + (store_head + last) < marks_start main.old.seat.space }
    ensures stores { StoresOn main.old main.new }
    ensures closes { let at = store + (store_head + from) in
        ClosesGap main.old main.new at (store + (store_head + last)) hole_word beside_touch }
{
    move_beside(main, store, from, last);
    main.addresses_fit();
    main.store(store, STORE_HEAD + last, Word::odd(odd::HOLE));
}

/// Moves the slots of the fields of a shape down by one, from one slot on, where there are some in
/// the property store. The first of these comes into the object as this word; the slot behind the
/// fields holds nothing then.
pub(crate) fn close_both(
    main: &mut Main,
    object: u32,
    store: u32,
    shape: u32,
    slot: u32,
    first: u64,
)
    requires may { MayRefill main.old object (shape_path main.old.paths shape).cap }
    requires may_beside { let path = shape_path main.old.paths shape in
        MayChangeStore main.old store (fields_beside path + 1) }
    requires held { let path = shape_path main.old.paths shape in
        MayCloseSlots main.old object path.cap store slot (length path.fields) first path }
    requires path { IsPathShape main.old.paths shape }
    requires order { slot ≤ length (shape_path main.old.paths shape).fields }
    requires beside { let path = shape_path main.old.paths shape in
        path.cap ≤ length path.fields }
    requires within { SlotsWithin main.old object store shape }
    ensures stores { StoresOn main.old main.new }
    ensures closes { let path = shape_path main.old.paths shape in
        ClosesSlots main.old main.new object path.cap store slot (length path.fields) first path }
{
    let shapes = main.shapes();
    let cap = shapes.cap(shape);
    let last = shapes.fields(shape);
    if slot < cap {
        draw_in(main, object, shape, slot, cap - 1, first);
        close_beside(main, store, 0, last - cap);
    } else {
        close_beside(main, store, slot - cap, last - cap);
    }
}
