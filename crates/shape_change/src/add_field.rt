//! A field of a name that is new to its object, and how it comes to an in-object slot. How it comes to the property
//! store is in `add_in_store.rt`; a field that is there is in `set_field.rt`.
ghost use Rattle.std.specs.Prelude.{◌≡◌, ℤ, ◌+◌, ◌<◌, ◌≤◌, false, IfOk, IfErr, IfSome, None, Result, Ok};
ghost use Rattle.std.specs.Prelude.{slice_set};
ghost use Rattle.page_space.specs.Extents.{layouts_start};
ghost use Rattle.write_barrier.specs.Storing.{StoresOn};
ghost use Rattle.write_barrier.specs.SureStores.{StoresSurely};
ghost use Rattle.object_graph.specs.Graphs.{Graph, PlainObject};
ghost use Rattle.object_graph.specs.declared.value.Value.{Value as GraphValue};
ghost use Rattle.object_graph.specs.Objects.{field_value};
ghost use Rattle.shape_tree.specs.Shapes.{IsPathShape, shape_path, has_name};
ghost use Rattle.write_barrier.specs.Seats.{heap_words};
ghost use Rattle.write_barrier.specs.MutatorState.{heap_of, MainShows};
ghost use Rattle.write_barrier.specs.Recording.{Touches, touched_one};
ghost use Rattle.write_barrier.specs.Reading.{IsHeaderAt};
ghost use Rattle.object_cells.specs.PlainObjects.{IsPlainAt};
ghost use Rattle.object_cells.specs.HeldValues.{IsValueHeld};
ghost use Rattle.tagged_word.specs.Shapes.{first_path_shape};
ghost use Rattle.shape_change.specs.FieldChanges.{IsShownSetting, MaySet, Sets, SetsField};
ghost use Rattle.shape_change.specs.declared.stop.FieldStop.{FieldStop as Why};
ghost use Rattle.shape_change.specs.Additions.{IsNewField, RefusesField, HasOwnSlot, CanAdd, AddsOwn, MayPutContent};
ghost use Rattle.shape_change.specs.Additions.{count_of};
ghost use Rattle.shape_change.specs.Additions as additions;
ghost use Rattle.object_cells.specs.Made.{PutsWords, content_word, slot_touch};
ghost use Rattle.handle_roots.specs.declared.held.Held.{Held as What};
ghost use Rattle.handle_roots.specs.Givens.{IsGivenFor};
ghost use Rattle.object_cells.specs.Contents.{held_rep};

use crate::add_in_store::add_in_store;
use crate::outcome::{FieldOutcome, told};
use crate::stop::FieldStop;
use crate::transitions::{set_shape, step_to};
use handle_roots::{Given, Held};
use object_cells::{SlotContent, content_of, rep_of};
use object_graph::limits::FIELDS_MOST;
use object_graph::{PathField, Rep};
use shape_tree::Step;
use tagged_word::cell::PLAIN_HEAD;
use tagged_word::{Header, shape};
use write_barrier::Main;

/// A field of a new name, as it comes to an object.
#[derive(Clone, Copy)]
pub(crate) struct NewField {
    /// Its name, and the narrowest representation of its value.
    pub(crate) field: PathField,
    pub(crate) value: Held,
    /// The number of its slot.
    pub(crate) slot: u32,
    /// How many in-object slots the object has.
    pub(crate) cap: u32,
    /// Where the step to the object's path with the field leads.
    pub(crate) step: Step,
}

/// How a field of a new name comes to an object of a shape.
///
/// # Errors
/// The object has 64 fields, or there may not be as many field paths.
#[inline(always)]
pub(crate) fn new_field(
    main: &Main,
    shape: u32,
    name: u32,
    rep: Rep,
    value: Held,
) -> Result<NewField, FieldStop>
    requires narrowest { rep ≡ held_rep value }
    requires path { IsPathShape main.now.paths shape }
    requires is_new { has_name (shape_path main.now.paths shape) name ≡ false }
    ensures new { IfOk result (IsNewField main.now.paths shape name value) }
    ensures refused { IfErr result (RefusesField main.now.paths shape name value) }
{
    let shapes = main.shapes();
    let slot = shapes.fields(shape);
    if slot >= FIELDS_MOST {
        return Err(FieldStop::FieldsFull);
    }
    let field = PathField { name, rep };
    let step = shapes.can_step(shape, field)?;
    Ok(NewField {
        field,
        value,
        slot,
        cap: shapes.cap(shape),
        step,
    })
}

/// How a field of a new name comes to an in-object slot, if the step to the path with it is cached. The shape may be
/// any: only the shape of a path has steps.
#[inline(always)]
fn cached_field(main: &Main, shape: u32, name: u32, value: Given) -> Option<NewField>
    requires { (held : What) × IsGivenFor value held }
    ensures { IfSome result (HasOwnSlot main.now.paths shape name value) }
{
    main.paths_fit();
    let field = PathField {
        name,
        rep: rep_for(value),
    };
    let shapes = main.shapes();
    let next = shapes.cached_step(shape, field)?;
    let slot = shapes.fields(shape);
    let cap = shapes.cap(shape);
    if slot >= cap {
        return None;
    }
    Some(NewField {
        field,
        value: value.held(),
        slot,
        cap,
        step: Step::Found(next),
    })
}

/// Adds a field of a new name to the plain object at an address, which has this header, after its other fields.
///
/// # Errors
/// The object is no plain one; it has 64 fields; there may not be as many field paths; there is no room for a store or
/// a box that the field needs. In this order; nothing has changed.
#[inline(never)]
pub(crate) fn add<O: FieldOutcome>(
    main: &mut Main,
    object: u32,
    header: Header,
    name: u32,
    value: Given,
) -> O
    requires may { MaySet main.old object header value }
    requires is_new { first_path_shape ≤ header.shape
        → has_name (shape_path main.old.paths header.shape) name ≡ false }
    ensures { (came : Result Unit Why) × O.Tells result came
        × Sets main.old main.new object header name value came }
{
    // Where a step is cached the object is a plain one, and its path is there. Neither is asked, and nothing is called.
    match cached_field(main, header.shape, name, value) {
        Some(new) => {
            add_new(main, object, header, name, value, new);
            O::done()
        }
        None => add_sought(main, object, header, name, value),
    }
}

/// The same where no step to an in-object slot is cached.
#[cold]
#[inline(never)]
fn add_sought<O: FieldOutcome>(
    main: &mut Main,
    object: u32,
    header: Header,
    name: u32,
    value: Given,
) -> O
    requires may { MaySet main.old object header value }
    requires is_new { first_path_shape ≤ header.shape
        → has_name (shape_path main.old.paths header.shape) name ≡ false }
    ensures { (came : Result Unit Why) × O.Tells result came
        × Sets main.old main.new object header name value came }
{
    if header.shape < shape::PATHS {
        return O::refused(FieldStop::NotPlain);
    }
    let shapes = main.shapes();
    if shapes.fields(header.shape) < shapes.cap(header.shape) {
        told(add_in_object(main, object, header, name, value))
    } else {
        told(add_in_store(main, object, header, name, value.held()))
    }
}

/// The narrowest representation that holds a value.
#[inline(always)]
fn rep_for(value: Given) -> Rep
    ensures { (held : What) → IsGivenFor value held → result ≡ held_rep held }
{
    match value {
        Given::Word(word) if word.is_small() => Rep::Small,
        Given::Word(_) => Rep::Tagged,
        Given::Int(v) => rep_of(Held::Int(v)),
    }
}

/// What an in-object slot comes to hold for a value.
#[inline(always)]
fn own_content(value: Given) -> SlotContent
    ensures { (held : What) → IsGivenFor value held → result ≡ additions.own_content held }
{
    match value {
        Given::Word(word) => SlotContent::Tagged(word),
        Given::Int(v) => content_of(true, rep_of(Held::Int(v)), Held::Int(v)),
    }
}

/// Adds a field to an object that has an in-object slot for it: the word is put at once.
#[inline(always)]
fn add_in_object(
    main: &mut Main,
    object: u32,
    header: Header,
    name: u32,
    value: Given,
) -> Result<(), FieldStop>
    requires shown { (held : What) × IsGivenFor value held × IsShownSetting main.old object held }
    requires headed { IsHeaderAt (heap_of main.old) object header }
    requires is_new { has_name (shape_path main.old.paths header.shape) name ≡ false }
    requires own { count_of main.old.paths header.shape < (shape_path main.old.paths header.shape).cap }
    ensures { (held : What) → IsGivenFor value held
        → (graph : Graph) (plain : PlainObject) (what : GraphValue) → MainShows main.old graph
        → IsPlainAt main.old graph object plain → IsValueHeld main.old graph held what
        → field_value plain.fields name ≡ None
        → SetsField main.old main.new graph object plain name what result }
{
    let new = new_field(main, header.shape, name, rep_for(value), value.held())?;
    add_new(main, object, header, name, value, new);
    Ok(())
}

/// The same where it is known how the field comes to the object.
#[inline(always)]
fn add_new(main: &mut Main, object: u32, header: Header, name: u32, value: Given, new: NewField)
    requires shown { (held : What) × IsGivenFor value held × IsShownSetting main.old object held }
    requires headed { IsHeaderAt (heap_of main.old) object header }
    requires is_new { has_name (shape_path main.old.paths header.shape) name ≡ false }
    requires new { HasOwnSlot main.old.paths header.shape name value new }
    ensures { (held : What) → IsGivenFor value held
        → (graph : Graph) (plain : PlainObject) (what : GraphValue) → MainShows main.old graph
        → IsPlainAt main.old graph object plain → IsValueHeld main.old graph held what
        → field_value plain.fields name ≡ None
        → SetsField main.old main.new graph object plain name what (Ok tt) }
{
    main.addresses_fit();
    add_own(main, object, header, new, own_content(value));
}

/// The field comes to the next in-object slot, which comes to hold this.
#[inline(always)]
fn add_own(main: &mut Main, object: u32, header: Header, new: NewField, content: SlotContent)
    requires can { CanAdd main.old object header new.field.name new.value }
    requires new { let paths = main.old.paths in
        IsNewField paths header.shape new.field.name new.value new }
    requires own { let paths = main.old.paths in
        count_of paths header.shape < (shape_path paths header.shape).cap }
    requires content { content ≡ additions.own_content new.value }
    ensures { AddsOwn main.old main.new object header new.field.name new.value }
{
    let next = step_to(main, header.shape, new.field, new.step);
    put_own(main, object, PLAIN_HEAD + new.slot, content);
    set_shape(main, object, header, next);
}

/// Puts in an in-object slot what it comes to hold.
#[inline(always)]
fn put_own(main: &mut Main, object: u32, offset: u32, content: SlotContent)
    requires may { MayPutContent main.old (object + offset) content }
    requires within { object + offset < layouts_start main.old.seat.space }
    requires own { (v : ℤ) → content ≡ SlotContent.Boxed v → ⊥ }
    ensures puts { let words = heap_words main.old.seat in
        PutsWords main.old main.new
        (slice_set words (object + offset) (content_word content 0)) }
    ensures touches { let how = slot_touch content in
        Touches main.old main.new (touched_one how (object + offset)) }
    ensures stores { StoresOn main.old main.new }
    ensures surely { let how = slot_touch content in
        StoresSurely main.new (touched_one how (object + offset)) }
{
    // There are as many words as addresses before the marks.
    main.addresses_fit();
    match content {
        SlotContent::Tagged(word) => main.store(object, offset, word),
        SlotContent::Raw(word) => main.write_slot(object, offset, word),
        SlotContent::Boxed(_) => unreachable!(),
    }
}
