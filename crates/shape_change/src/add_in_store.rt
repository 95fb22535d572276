//! A field of a new name whose slot is one of the property store. How it comes to an in-object slot is in
//! `add_field.rt`.
ghost use Rattle.heap_model.specs.Needs as needs;
ghost use Rattle.heap_model.specs.Rooms.{new_field_need};
ghost use Rattle.std.specs.Prelude.{◌≡◌, ◌+◌, ◌<◌, ◌≤◌, false, OnOk, IfErr, None, length};
ghost use Rattle.tagged_word.specs.Cells.{store_head, cell_words_most};
ghost use Rattle.object_graph.specs.Graphs.{Graph, PlainObject};
ghost use Rattle.object_graph.specs.declared.value.Value.{Value as GraphValue};
ghost use Rattle.object_graph.specs.Objects.{field_value};
ghost use Rattle.shape_tree.specs.Shapes.{shape_path, has_name};
ghost use Rattle.write_barrier.specs.MutatorState.{heap_of, MainShows};
ghost use Rattle.write_barrier.specs.Reading.{IsHeaderAt};
ghost use Rattle.object_cells.specs.PlainObjects.{IsPlainAt};
ghost use Rattle.object_cells.specs.HeldValues.{IsValueHeld};
ghost use Rattle.object_cells.specs.Made.{IsStoreAt, RefusesRoom, is_wide_held, content_need, store_content};
ghost use Rattle.shape_change.specs.FieldChanges.{IsShownSetting, SetsField};
ghost use Rattle.shape_change.specs.Additions.{IsNewField, CanAdd, ComesBehind, behind_cap};
ghost use Rattle.shape_change.specs.Additions.{AddsField, AddsToStore, AddsToNewStore};

use crate::add_field::{NewField, new_field};
use crate::stop::FieldStop;
use crate::transitions::{set_shape, step_to};
use handle_roots::Held;
use heap_model::cells::FIRST_CAPACITY;
use object_cells::{
    Store, boxed_word, content_of, make_store, need_of, rep_of, room_for, store_of,
};
use tagged_word::Header;
use tagged_word::cell::STORE_HEAD;
use write_barrier::{Main, NoRoom};

/// Adds a field to an object the in-object slots of which are used.
#[inline(never)]
pub(crate) fn add_in_store(
    main: &mut Main,
    object: u32,
    header: Header,
    name: u32,
    value: Held,
) -> Result<(), FieldStop>
    requires shown { IsShownSetting main.old object value }
    requires headed { IsHeaderAt (heap_of main.old) object header }
    requires is_new { has_name (shape_path main.old.paths header.shape) name ≡ false }
    requires behind { ComesBehind main.old.paths header.shape }
    ensures { (graph : Graph) (plain : PlainObject) (what : GraphValue) → MainShows main.old graph
        → IsPlainAt main.old graph object plain → IsValueHeld main.old graph value what
        → field_value plain.fields name ≡ None
        → SetsField main.old main.new graph object plain name what result }
{
    main.addresses_fit();
    // A refusal changes nothing: paths are counted before words are reserved, and these before the
    // path is added.
    let new = new_field(main, header.shape, name, rep_of(value), value)?;
    store_field(main, object, header, new)?;
    Ok(())
}

/// The field comes to the next slot of the property store, in place of which a larger one is made where it is full.
#[inline(always)]
fn store_field(main: &mut Main, object: u32, header: Header, new: NewField) -> Result<(), NoRoom>
    requires can { CanAdd main.old object header new.field.name new.value }
    requires new { let paths = main.old.paths in
        IsNewField paths header.shape new.field.name new.value new }
    requires behind { ComesBehind main.old.paths header.shape }
    ensures ok { let name = new.field.name in
        OnOk result (AddsField main.old main.new object header name new.value) }
    ensures refused { let path = shape_path main.old.paths header.shape in
        let capacity = needs.capacity_at (heap_of main.old) object in
        let need = new_field_need capacity path.cap (length path.fields) (is_wide_held new.value) in
        IfErr result (RefusesRoom main.old main.new need) }
{
    let store = store_of(main, object);
    if new.slot - new.cap < store.capacity {
        add_to_store(main, object, header, new, store)
    } else {
        add_to_new_store(main, object, header, new, store)
    }
}

/// The field comes to the next slot of the property store.
#[inline(always)]
fn add_to_store(
    main: &mut Main,
    object: u32,
    header: Header,
    new: NewField,
    store: Store,
) -> Result<(), NoRoom>
    requires can { CanAdd main.old object header new.field.name new.value }
    requires new { let paths = main.old.paths in
        IsNewField paths header.shape new.field.name new.value new }
    requires is { IsStoreAt (heap_of main.old) object store }
    requires behind { ComesBehind main.old.paths header.shape }
    requires room { behind_cap main.old.paths header.shape < store.capacity }
    ensures ok { let name = new.field.name in
        OnOk result (AddsToStore main.old main.new object header name new.value store) }
    ensures refused { let need = content_need (store_content new.value) in
        IfErr result (RefusesRoom main.old main.new need) }
{
    let content = content_of(false, new.field.rep, new.value);
    let at = room_for(main, need_of(content))?;
    let next = step_to(main, header.shape, new.field, new.step);
    let word = boxed_word(main, content, at);
    main.store(store.at, STORE_HEAD + (new.slot - new.cap), word);
    set_shape(main, object, header, next);
    Ok(())
}

/// The field comes to the next slot of a store that takes the place of one that is full.
#[inline(always)]
fn add_to_new_store(
    main: &mut Main,
    object: u32,
    header: Header,
    new: NewField,
    store: Store,
) -> Result<(), NoRoom>
    requires can { CanAdd main.old object header new.field.name new.value }
    requires new { let paths = main.old.paths in
        IsNewField paths header.shape new.field.name new.value new }
    requires is { IsStoreAt (heap_of main.old) object store }
    requires behind { ComesBehind main.old.paths header.shape }
    requires full { behind_cap main.old.paths header.shape ≡ store.capacity }
    ensures ok { let name = new.field.name in
        OnOk result (AddsToNewStore main.old main.new object header name new.value store) }
    ensures refused { let words = store_head + needs.grown store.capacity in
        let need = words + content_need (store_content new.value) in
        IfErr result (RefusesRoom main.old main.new need) }
{
    // The box stands behind the store.
    main.addresses_fit();
    let content = content_of(false, new.field.rep, new.value);
    let capacity = grown(store.capacity);
    let words = STORE_HEAD + capacity;
    let at = room_for(main, words + need_of(content))?;
    let next = step_to(main, header.shape, new.field, new.step);
    make_store(main, object, store, capacity, at);
    let word = boxed_word(main, content, at + words);
    main.store(at, STORE_HEAD + store.capacity, word);
    set_shape(main, object, header, next);
    Ok(())
}

/// How many slots the store has that takes the place of one that is full: twice as many.
fn grown(capacity: u32) -> u32
    requires { store_head + capacity ≤ cell_words_most }
    ensures { result ≡ needs.grown capacity }
{
    FIRST_CAPACITY.max(2 * capacity)
}
