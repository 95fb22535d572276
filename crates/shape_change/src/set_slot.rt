//! How the slot of a field that is there is set: as it is, in its box, or wider, with another shape for the object.
ghost use Rattle.std.specs.Prelude.{◌≡◌, ◌+◌, ◌<◌, ◌≤◌, length, OnOk, IfErr, ℕ, Some, slice_get};
ghost use Rattle.std.specs.Prelude.{option_map, OnErr, None};
ghost use Rattle.write_barrier.specs.MutatorState.{heap_of, IsTied, MainShows};
ghost use Rattle.write_barrier.specs.Storing.{StoresOn};
ghost use Rattle.shape_change.specs.FieldChanges.{IsShownSetting, SetsField};
ghost use Rattle.write_barrier.specs.Reading.{IsHeaderAt};
ghost use Rattle.object_cells.specs.CellsAt.{HasField};
ghost use Rattle.shape_change.specs.Fillings.{IsSlotSetting, MayComeToHold, with_paths, CanSetSlot, SetsWider};
ghost use Rattle.page_space.specs.Extents.{layouts_start, marks_start};
ghost use Rattle.object_graph.specs.Paths.{missing};
ghost use Rattle.object_graph.specs.Limits.{paths_most};
ghost use Rattle.shape_tree.specs.Shapes.{IsPathShape, shape_path, changed, Leads};
ghost use Rattle.shape_tree.specs.Shapes.{LacksPathsFor};
ghost use Rattle.heap_model.specs.Wholeness.{HasSizes, Whole};
ghost use Rattle.write_barrier.specs.Opening.{ChangesWithin};
ghost use Rattle.shape_change.specs.Places.{place_at};
ghost use Rattle.object_graph.specs.declared.value.Value.{Value};
ghost use Rattle.object_graph.specs.Graphs.{Graph, PlainObject};
ghost use Rattle.heap_model.specs.Needs.{word_at};
ghost use Rattle.object_cells.specs.PlainObjects.{IsPlainAt};
ghost use Rattle.object_cells.specs.HeldValues.{IsValueHeld};
ghost use Rattle.object_cells.specs.Contents.{HoldsSlotWord, LacksRoom, FillsSlot, filling_at};

use crate::slots::{Place, fill, filling_of, slot_place};
use crate::stop::FieldStop;
use crate::transitions::set_shape;
use handle_roots::Held;
use object_cells::{SlotContent, SlotWrite, content_of, rep_of};
use object_graph::Rep;
use shape_tree::ShapesFull;
use tagged_word::Header;
use write_barrier::{Main, NoRoom};

/// How the slot of a field is set.
#[derive(Clone, Copy)]
pub(crate) struct SlotSetting {
    /// Where it stands.
    pub(crate) place: Place,
    /// The representation of its field before.
    pub(crate) was: Rep,
    /// The representation of its field afterwards: it never narrows.
    pub(crate) rep: Rep,
    /// What it comes to hold.
    pub(crate) content: SlotContent,
}

/// How the slot of the field of this number and representation of the plain object at an address is set to a
/// value, by the cap of its path.
#[inline(always)]
pub(crate) fn setting_of(
    main: &Main,
    object: u32,
    shape: u32,
    slot: u32,
    was: Rep,
    cap: u32,
    value: Held,
) -> SlotSetting
    requires shown { IsShownSetting main.now object value }
    requires there { HasField (heap_of main.now) object shape slot }
    requires was { let fields = (shape_path main.now.paths shape).fields in
        option_map (λ field. field.rep) (slice_get fields slot) ≡ Some was }
    requires cap { cap ≡ (shape_path main.now.paths shape).cap }
    ensures { IsSlotSetting (heap_of main.now) object shape slot value result }
{
    let place = slot_place(main, object, cap, slot);
    let rep = was.join(rep_of(value));
    SlotSetting {
        place,
        was,
        rep,
        content: content_of(place.is_own(), rep, value),
    }
}

/// There may be as many paths as another representation of a field needs.
///
/// # Errors
/// There may not.
fn room_for_change(main: &Main, shape: u32, slot: u32, rep: Rep) -> Result<(), ShapesFull>
    requires path { IsPathShape main.now.paths shape }
    requires there { slot < length (shape_path main.now.paths shape).fields }
    ensures room { let path = changed (shape_path main.now.paths shape) slot rep in
        OnOk result (length main.now.paths + length (missing main.now.paths path) ≤ paths_most) }
    ensures refused { let path = changed (shape_path main.now.paths shape) slot rep in
        IfErr result (λ full. LacksPathsFor main.now.paths main.now.paths path full) }
{
    let shapes = main.shapes();
    // No path has more prefixes: mostly there is room for them, and none needs to be sought.
    match shapes.room_for(shapes.fields(shape) + 1) {
        Ok(()) => Ok(()),
        Err(_) => shapes.room_for(shapes.missing_change(shape, slot, rep)),
    }
}

/// The shape with another representation of a field. Its path is there from now on, with its
/// prefixes and their layout words: there may be as many paths.
fn changed_shape(main: &mut Main, shape: u32, slot: u32, rep: Rep) -> u32
    requires sized { HasSizes (heap_of main.old) }
    requires path { IsPathShape main.old.paths shape }
    requires there { slot < length (shape_path main.old.paths shape).fields }
    requires room { let path = changed (shape_path main.old.paths shape) slot rep in
        length main.old.paths + length (missing main.old.paths path) ≤ paths_most }
    ensures leads { let path = changed (shape_path main.old.paths shape) slot rep in
        Leads main.old.paths main.new.paths path result }
    ensures sized { HasSizes (heap_of main.new) }
    ensures stores { StoresOn main.old main.new }
    ensures changes { let space = main.old.seat.space in
        let before = with_paths main.old main.new.paths in
        ChangesWithin before main.new (layouts_start space) (marks_start space) }
{
    let Ok(next) = main.change_path(shape, slot, rep) else {
        unreachable!()
    };
    next
}

/// Sets the slot of this number of the plain object at an address, whose field comes to have
/// another representation, and the object another shape.
///
/// # Errors
/// There may not be as many paths; there is no room for a box. In this order; nothing has changed.
#[inline(always)]
fn set_wider(
    main: &mut Main,
    object: u32,
    header: Header,
    slot: u32,
    setting: SlotSetting,
) -> Result<(), FieldStop>
    requires can { CanSetSlot main.old object header.shape slot setting }
    requires headed { IsHeaderAt (heap_of main.old) object header }
    ensures { let path = changed (shape_path main.old.paths header.shape) slot setting.rep in
        let at = place_at object setting.place in
        SetsWider main.old main.new object at path setting.content result }
{
    let SlotSetting { place, rep, .. } = setting;
    room_for_change(main, header.shape, slot, rep)?;
    let filling = filling_of(main, object, place, setting.content)?;
    let next = changed_shape(main, header.shape, slot, rep);
    // Marking may not have looked at the slot, and will not where it becomes raw.
    main.blacken(object);
    fill(main, object, place, filling);
    set_shape(main, object, header, next);
    Ok(())
}

/// The slot at a place of a plain object comes to hold this, by a filling: a box is made or written.
#[inline(always)]
fn set_by_filling(
    main: &mut Main,
    object: u32,
    place: Place,
    content: SlotContent,
) -> Result<(), NoRoom>
    requires may { MayComeToHold main.old (place_at object place) content }
    requires whole { Whole (heap_of main.old) }
    requires tied { IsTied main.old }
    requires within { place_at object place < marks_start main.old.seat.space }
    requires held { let word = word_at (heap_of main.old) (place_at object place) in
        HoldsSlotWord (heap_of main.old) word content }
    ensures fills { OnOk result (FillsSlot main.old main.new (place_at object place) content) }
    ensures refused { IfErr result (λ full.
        LacksRoom main.old (filling_at main.old (place_at object place) content) full) }
    ensures unchanged { OnErr result (main.new ≡ main.old) }
{
    let filling = filling_of(main, object, place, content)?;
    fill(main, object, place, filling);
    Ok(())
}

/// The slot at a place of a plain object comes to hold this; its shape stays.
#[inline(always)]
fn set_as_is(main: &mut Main, object: u32, place: Place, content: SlotContent) -> Result<(), NoRoom>
    requires may { MayComeToHold main.old (place_at object place) content }
    requires whole { Whole (heap_of main.old) }
    requires tied { IsTied main.old }
    requires within { place_at object place < marks_start main.old.seat.space }
    requires held { let word = word_at (heap_of main.old) (place_at object place) in
        HoldsSlotWord (heap_of main.old) word content }
    ensures fills { OnOk result (FillsSlot main.old main.new (place_at object place) content) }
    ensures refused { IfErr result (λ full.
        LacksRoom main.old (filling_at main.old (place_at object place) content) full) }
    ensures unchanged { OnErr result (main.new ≡ main.old) }
{
    match content {
        SlotContent::Tagged(word) => fill(main, object, place, SlotWrite::Tagged(word)),
        SlotContent::Raw(word) => fill(main, object, place, SlotWrite::Raw(word)),
        SlotContent::Boxed(_) => return set_by_filling(main, object, place, content),
    }
    Ok(())
}

/// Gives the field of this number and representation of the plain object at an address, whose path has this cap,
/// the value. The representation never narrows, and the object gets another shape where it widens.
#[inline(never)]
pub(crate) fn set_there(
    main: &mut Main,
    object: u32,
    header: Header,
    slot: u32,
    rep: Rep,
    cap: u32,
    value: Held,
) -> Result<(), FieldStop>
    requires shown { IsShownSetting main.old object value }
    requires headed { IsHeaderAt (heap_of main.old) object header }
    requires there { HasField (heap_of main.old) object header.shape slot }
    requires rep { let fields = (shape_path main.old.paths header.shape).fields in
        option_map (λ field. field.rep) (slice_get fields slot) ≡ Some rep }
    requires cap { cap ≡ (shape_path main.old.paths header.shape).cap }
    ensures { (graph : Graph) (plain : PlainObject) (what : Value) (name : ℕ)
        → MainShows main.old graph → IsPlainAt main.old graph object plain
        → IsValueHeld main.old graph value what
        → option_map (λ field. field.name) (slice_get plain.fields slot) ≡ Some name
        → SetsField main.old main.new graph object plain name what result }
{
    main.addresses_fit();
    let setting = setting_of(main, object, header.shape, slot, rep, cap, value);
    if setting.rep != setting.was {
        return set_wider(main, object, header, slot, setting);
    }
    set_as_is(main, object, setting.place, setting.content)?;
    Ok(())
}
