//! The call `get`: a variable comes to hold a field of a plain object, or of the nearest that follows it by prototypes
//! and has it. How a prototype is read is in `prototypes.rt`.
ghost use Rattle.std.specs.Prelude.{◌≡◌, ◌<◌, ◌≤◌, ◌↔◌, IsTrue, false};
ghost use Rattle.tagged_word.specs.Shapes.{first_path_shape};
ghost use Rattle.object_graph.specs.Graphs.{Graph, PlainObject};
ghost use Rattle.object_graph.specs.Prototypes.{prototypes_most};
ghost use Rattle.shape_tree.specs.Shapes.{IsLocated};
ghost use Rattle.shape_tree.specs.declared.located.Located.{Located as Found};
ghost use Rattle.shape_change.specs.WordPlaces.{StandsWord};
ghost use Rattle.write_barrier.specs.MutatorState.{heap_of, MainShows};
ghost use Rattle.object_cells.specs.PlainObjects.{IsPlainAt, IsShownPlain};
ghost use Rattle.shape_change.specs.FieldChanges.{HoldsSlot, HoldsValue, value_along};
ghost use Rattle.shape_change.specs.FieldsSought.{HoldsSought, HoldsOwn, HoldsAlong, HoldsFirst};
ghost use Rattle.shape_change.specs.FieldsSought.{LacksName, field_in_first};
ghost use Rattle.write_barrier.specs.Reading.{IsHeaderAt};
ghost use Rattle.object_cells.specs.CellsAt.{HasField};
ghost use Rattle.heap_model.specs.Wholeness.{Whole};

use crate::outcome::FieldOutcome;
use crate::prototypes::prototype;
use crate::slots::{
    Place, hold_field, hold_tagged, own_place, slot_place, stored_place, word_of_place,
};
use handle_roots::Held;
use object_graph::limits::PROTOTYPES_MOST;
use shape_tree::{CachedSlot, Located};
use tagged_word::{Header, Word, shape};
use write_barrier::Main;

/// Makes a variable hold the value of a field of the plain object at an address, by where it stands in
/// the path.
#[inline(always)]
fn hold_slot(main: &mut Main, variable: u32, object: u32, found: Located)
    requires whole { Whole (heap_of main.old) }
    requires known { variable < main.old.seat.space.variables }
    requires located { IsLocated main.old.paths found }
    requires there { HasField (heap_of main.old) object found.shape found.at }
    ensures { HoldsSlot main.old main.new variable object found.at }
{
    let place = slot_place(main, object, found.cap as u32, found.at);
    let word = word_of_place(main, object, place);
    hold_field(main, variable, place.is_own(), found.rep, word);
}

/// Makes a variable hold the value of a field of the object at an address, which has this header, if it is a plain one,
/// and returns whether it is. Where it has none of the name, the nearest of its prototypes that has one is taken, and
/// `undefined` where none has. Nothing changes where the object is no plain one.
/// Only shapes of plain objects are cached, so where a slot is cached the object is one, and its shape is not asked.
///
/// It is compiled for each `O` of its callers: with one call in each copy it is inlined, and with two in all it is not,
/// which costs the loop over lines a third of a `get`. Only a cached slot is read here, and the rest stands in calls:
/// if the test of the shape were inlined too, each `get` would keep a copy of the header's word for it.
#[inline(always)]
pub fn get<O: FieldOutcome>(
    main: &mut Main,
    variable: u32,
    object: u32,
    header: Header,
    name: u32,
) -> bool
    requires plain { first_path_shape ≤ header.shape → IsShownPlain main.old object }
    requires headed { IsHeaderAt (heap_of main.old) object header }
    requires known { variable < main.old.seat.space.variables }
    ensures held { IsTrue result → (graph : Graph) (plain : PlainObject) → MainShows main.old graph
        → IsPlainAt main.old graph object plain
        → HoldsValue main.old main.new variable (value_along graph plain name) }
    ensures plain { IsTrue result ↔ (first_path_shape ≤ header.shape) }
    ensures unchanged { result ≡ false → main.new ≡ main.old }
{
    match main.cached_slot(header.shape, name) {
        CachedSlot::InObject(slot, _) => {
            let place = own_place(main, object, slot);
            hold_word_at(main, variable, object, place);
            true
        }
        CachedSlot::InStore(slot, _) => {
            let place = stored_place(main, object, slot);
            hold_word_at(main, variable, object, place);
            true
        }
        CachedSlot::Absent => get_absent(main, variable, object, header, name),
        CachedSlot::Miss => get_sought(main, variable, object, header, name),
    }
}

/// Makes a variable hold the value of a field of the plain object at an address that is no wide one, by the place of
/// its slot.
#[inline(always)]
fn hold_word_at(main: &mut Main, variable: u32, object: u32, place: Place)
    requires whole { Whole (heap_of main.old) }
    requires known { variable < main.old.seat.space.variables }
    requires stands { (found : Found) × StandsWord main.old object found place }
    ensures { (found : Found) → StandsWord main.old object found place →
        HoldsSlot main.old main.new variable object found.at }
{
    main.addresses_fit();
    let word = word_of_place(main, object, place);
    hold_tagged(main, variable, Word(word));
}

/// The same as `get` where no slot is cached.
#[inline(never)]
fn get_sought(main: &mut Main, variable: u32, object: u32, header: Header, name: u32) -> bool
    requires plain { first_path_shape ≤ header.shape → IsShownPlain main.old object }
    requires headed { IsHeaderAt (heap_of main.old) object header }
    requires known { variable < main.old.seat.space.variables }
    ensures held { IsTrue result → HoldsAlong main.old main.new variable object name }
    ensures plain { IsTrue result ↔ (first_path_shape ≤ header.shape) }
    ensures unchanged { result ≡ false → main.new ≡ main.old }
{
    if header.shape < shape::PATHS {
        return false;
    }
    if hold_sought(main, variable, object, header, name) {
        return true;
    }
    get_beyond(main, variable, object, name);
    true
}

/// The same as `get` where the object, if it is a plain one, has no field of the name.
#[inline(never)]
fn get_absent(main: &mut Main, variable: u32, object: u32, header: Header, name: u32) -> bool
    requires plain { first_path_shape ≤ header.shape → IsShownPlain main.old object }
    requires lacks { first_path_shape ≤ header.shape → LacksName main.old object name }
    requires known { variable < main.old.seat.space.variables }
    ensures held { IsTrue result → HoldsAlong main.old main.new variable object name }
    ensures plain { IsTrue result ↔ (first_path_shape ≤ header.shape) }
    ensures unchanged { result ≡ false → main.new ≡ main.old }
{
    if header.shape < shape::PATHS {
        return false;
    }
    get_beyond(main, variable, object, name);
    true
}

/// Makes a variable hold the value of a field of the plain object at an address, which has none of the name itself.
/// Most objects have no prototype, so what is done with one stands in a call.
#[inline(always)]
fn get_beyond(main: &mut Main, variable: u32, object: u32, name: u32)
    requires plain { IsShownPlain main.old object }
    requires lacks { LacksName main.old object name }
    requires known { variable < main.old.seat.space.variables }
    ensures { HoldsAlong main.old main.new variable object name }
{
    match prototype(main, object) {
        Some(first) => get_along(main, variable, first, name),
        None => main.hold(variable, Held::Undefined),
    }
}

/// Makes a variable hold the value of a field of the first plain object that has it, from the one at an address on, or
/// `undefined`.
#[inline(never)]
fn get_along(main: &mut Main, variable: u32, first: u32, name: u32)
    requires plain { IsShownPlain main.old first }
    requires known { variable < main.old.seat.space.variables }
    ensures { (graph : Graph) (plain : PlainObject) → MainShows main.old graph
        → IsPlainAt main.old graph first plain
        → HoldsFirst main.old main.new variable graph plain name }
{
    if hold_along(main, variable, first, name) {
        return;
    }
    main.hold(variable, Held::Undefined);
}

/// Makes a variable hold the value of a field of the first plain object that has it, from the one at an address on, and
/// returns whether one has it. Nothing changes where none has.
#[inline(always)]
fn hold_along(main: &mut Main, variable: u32, first: u32, name: u32) -> bool
    requires plain { IsShownPlain main.old first }
    requires known { variable < main.old.seat.space.variables }
    ensures { (graph : Graph) (plain : PlainObject) → MainShows main.old graph
        → IsPlainAt main.old graph first plain → HoldsSought main.old main.new variable
        (field_in_first graph.objects prototypes_most plain name) result }
{
    let mut object = first;
    for _turn in 0..PROTOTYPES_MOST {
        if hold_own(main, variable, object, name) {
            return true;
        }
        let Some(next) = prototype(main, object) else {
            return false;
        };
        object = next;
    }
    false
}

/// Makes a variable hold the value of a field of the plain object at an address itself, and returns whether it has one
/// of the name. Nothing changes where it has none.
#[inline(always)]
fn hold_own(main: &mut Main, variable: u32, object: u32, name: u32) -> bool
    requires plain { IsShownPlain main.old object }
    requires known { variable < main.old.seat.space.variables }
    ensures { HoldsOwn main.old main.new variable object name result }
{
    let header = main.header(object);
    match main.cached_slot(header.shape, name) {
        CachedSlot::InObject(slot, _) => {
            let place = own_place(main, object, slot);
            hold_word_at(main, variable, object, place);
            true
        }
        CachedSlot::InStore(slot, _) => {
            let place = stored_place(main, object, slot);
            hold_word_at(main, variable, object, place);
            true
        }
        CachedSlot::Absent => false,
        CachedSlot::Miss => hold_sought(main, variable, object, header, name),
    }
}

/// The same as `hold_own` where no slot is cached. It is inlined in `get_sought`, since a wide field's slot is never
/// cached.
#[inline(always)]
fn hold_sought(main: &mut Main, variable: u32, object: u32, header: Header, name: u32) -> bool
    requires plain { IsShownPlain main.old object }
    requires headed { IsHeaderAt (heap_of main.old) object header }
    requires known { variable < main.old.seat.space.variables }
    ensures { HoldsOwn main.old main.new variable object name result }
{
    match main.lookup(header.shape, name) {
        Some(found) => {
            hold_slot(main, variable, object, found);
            true
        }
        None => false,
    }
}
