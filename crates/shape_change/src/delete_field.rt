//! The call `delete`. How slots move down is in `shift_slots.rt`.
ghost use Rattle.std.specs.Prelude.{◌≡◌, ℕ, ◌<◌, ◌≤◌, length, ℤ};
ghost use Rattle.object_graph.specs.Graphs.{Graph, PlainObject};
ghost use Rattle.shape_tree.specs.Shapes.{IsPathShape, shape_path};
ghost use Rattle.heap_model.specs.Slots.{RefersToBox, raw_word};
ghost use Rattle.heap_model.specs.Wholeness.{Whole};
ghost use Rattle.write_barrier.specs.MutatorState.{heap_of, MainShows};
ghost use Rattle.object_cells.specs.CellsAt.{HasField};
ghost use Rattle.object_cells.specs.PlainObjects.{IsPlainAt, IsShownPlain};
ghost use Rattle.shape_change.specs.FieldChanges.{DeletesField};
ghost use Rattle.shape_change.specs.Deletions.{HasStoreAt, HasFirstBeside, DrawsInFirst};
ghost use Rattle.shape_change.specs.Deletions.{FindsWithout, MayTakeOut, TakingOut};
ghost use Rattle.write_barrier.specs.Storing.{StoresOn};

use crate::shift_slots::{close_both, close_own};
use crate::transitions::set_shape;
use object_graph::Rep;
use shape_tree::ShapesFull;
use tagged_word::cell::{STORE_HEAD, STORE_SLOT};
use tagged_word::{Header, Word};
use write_barrier::Main;

/// The shape of the path of a shape without one field. The path, its missing prefixes and their
/// layout words are added; or there may not be as many paths, and nothing has changed.
fn shape_without(main: &mut Main, shape: u32, slot: u32) -> Result<u32, ShapesFull>
    requires whole { Whole (heap_of main.old) }
    requires path { IsPathShape main.old.paths shape }
    requires there { slot < length (shape_path main.old.paths shape).fields }
    ensures finds { FindsWithout main.old main.new shape slot result }
    ensures stores { StoresOn main.old main.new }
{
    main.shorten_path(shape, slot)
}

/// The address of the property store of the plain object at an address.
fn store_of(main: &Main, object: u32) -> u32
    requires whole { Whole (heap_of main.now) }
    requires there { (store : ℕ) × HasStoreAt (heap_of main.now) object store }
    ensures { HasStoreAt (heap_of main.now) object result }
{
    main.addresses_fit();
    match Word(main.slot(object, STORE_SLOT)).address() {
        Some(store) => store,
        None => unreachable!(),
    }
}

/// The raw word in the box to which a word refers.
fn raw_in_box(main: &Main, word: Word) -> u64
    requires whole { Whole (heap_of main.now) }
    requires boxed { (v : ℤ) × RefersToBox (heap_of main.now) word.0 v }
    ensures { (v : ℤ) → RefersToBox (heap_of main.now) word.0 v → result ≡ raw_word v }
{
    main.addresses_fit();
    match word.address() {
        Some(at) => main.slot(at, 1),
        None => unreachable!(),
    }
}

/// The word that the first field in the property store has in the object: as it is, and of a wide
/// one the integer in its box.
fn first_drawn_in(main: &Main, store: u32, shape: u32) -> u64
    requires whole { Whole (heap_of main.now) }
    requires there { HasFirstBeside (heap_of main.now) store shape }
    ensures { DrawsInFirst (heap_of main.now) store shape result }
{
    main.addresses_fit();
    let word = main.slot(store, STORE_HEAD);
    let shapes = main.shapes();
    match shapes.field(shape, shapes.cap(shape)).rep {
        Rep::Wide => raw_in_box(main, Word(word)),
        Rep::Small => word,
        Rep::Tagged => word,
    }
}

/// Takes out a field of the plain object at an address, all fields of which stand in the object.
fn take_out_own(main: &mut Main, object: u32, header: Header, slot: u32) -> Result<(), ShapesFull>
    requires may { MayTakeOut main.old object header.shape }
    requires whole { Whole (heap_of main.old) }
    requires there { HasField (heap_of main.old) object header.shape slot }
    requires own { let path = shape_path main.old.paths header.shape in
        length path.fields ≤ path.cap }
    ensures { TakingOut main.old main.new object header slot result }
{
    let next = shape_without(main, header.shape, slot)?;
    main.blacken(object);
    close_own(main, object, next, slot);
    set_shape(main, object, header, next);
    Ok(())
}

/// Takes out a field of the plain object at an address, some fields of which stand in its property
/// store.
fn take_out_beside(
    main: &mut Main,
    object: u32,
    header: Header,
    slot: u32,
) -> Result<(), ShapesFull>
    requires may { MayTakeOut main.old object header.shape }
    requires whole { Whole (heap_of main.old) }
    requires there { HasField (heap_of main.old) object header.shape slot }
    requires beside { let path = shape_path main.old.paths header.shape in
        path.cap < length path.fields }
    ensures { TakingOut main.old main.new object header slot result }
{
    // Read first: the heap is whole only until words change.
    let store = store_of(main, object);
    let first = first_drawn_in(main, store, header.shape);
    let next = shape_without(main, header.shape, slot)?;
    main.blacken(object);
    close_both(main, object, store, next, slot, first);
    set_shape(main, object, header, next);
    Ok(())
}

/// Takes out a field of the plain object at an address.
fn take_out(main: &mut Main, object: u32, header: Header, slot: u32) -> Result<(), ShapesFull>
    requires may { MayTakeOut main.old object header.shape }
    requires whole { Whole (heap_of main.old) }
    requires there { HasField (heap_of main.old) object header.shape slot }
    ensures { TakingOut main.old main.new object header slot result }
{
    let shapes = main.shapes();
    if shapes.fields(header.shape) <= shapes.cap(header.shape) {
        take_out_own(main, object, header, slot)
    } else {
        take_out_beside(main, object, header, slot)
    }
}

/// Takes a field out of the plain object at an address; the later ones keep their order. Nothing
/// happens where it is not there.
///
/// # Errors
/// There may not be as many field paths; nothing has changed.
pub fn delete(main: &mut Main, object: u32, name: u32) -> Result<(), ShapesFull>
    requires { IsShownPlain main.old object }
    ensures { (graph : Graph) (plain : PlainObject) → MainShows main.old graph
        → IsPlainAt main.old graph object plain
        → DeletesField main.old main.new graph object plain name result }
{
    // Which words slots may hold is told by addresses of 32 bits.
    main.addresses_fit();
    let header = main.header(object);
    match main.lookup(header.shape, name) {
        Some(found) => take_out(main, object, header, found.at),
        None => Ok(()),
    }
}
