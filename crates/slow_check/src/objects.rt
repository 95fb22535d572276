//! Whether the objects that can be reached have one place each, which shows them.
ghost use Rattle.std.specs.Prelude.{◌↔◌, IsTrue};
ghost use Rattle.heap_model.specs.Images.{image_heap};
ghost use Rattle.heap_model.specs.Heaps.{words_of_cell};
ghost use Rattle.heap_model.specs.Showing.{ShowsObject, ShowsReached};
ghost use Rattle.heap_model.specs.Wholeness.{HasRows, Whole};
ghost use Rattle.image_walk.specs.Words.{HasWords};
ghost use Rattle.image_walk.specs.Spans.{StandsIn};
ghost use Rattle.heap_check.specs.SoundCells.{HasSoundCells};
ghost use Rattle.slow_check.specs.Reached.{ShowReached, ShowsMarked};

use crate::fields::shows_plain;
use crate::lists::shows_list;
use crate::places::only_place;
use crate::weak::shows_weak;
use cell_layout::Cell;
use heap_model::HeapImage;
use ideal_graph::Object;

/// Whether each of the objects that is marked has one place in a whole heap and no second, and the
/// cell there shows it.
pub fn show_reached(image: &HeapImage, marks: &[bool], objects: &[Object]) -> bool
    requires whole { Whole (image_heap image.now) }
    ensures { IsTrue result ↔ ShowReached (image_heap image.now) marks.now objects.now }
{
    for (number, object) in objects.iter().enumerate() {
        if !shows_marked(image, marks, number, object) {
            return false;
        }
    }
    true
}

/// Whether the object has one place, which shows it, if it is marked.
fn shows_marked(image: &HeapImage, marks: &[bool], number: usize, object: &Object) -> bool
    requires sized { HasWords (image_heap image.now) }
    requires rows { HasRows (image_heap image.now) }
    requires sound { HasSoundCells (image_heap image.now) }
    ensures { IsTrue result ↔ ShowsMarked (image_heap image.now) marks.now number object.now }
{
    match marks.get(number).copied() {
        Some(true) => shows_reached(image, marks, number, object),
        _ => true,
    }
}

/// Whether the object has one place and no second, and the cell there shows it.
fn shows_reached(image: &HeapImage, marks: &[bool], number: usize, object: &Object) -> bool
    requires sized { HasWords (image_heap image.now) }
    requires rows { HasRows (image_heap image.now) }
    requires sound { HasSoundCells (image_heap image.now) }
    ensures { IsTrue result ↔ ShowsReached (image_heap image.now) marks.now number object.now }
{
    match only_place(image, number) {
        Some(cell) => shows_object(image, marks, cell, object),
        None => false,
    }
}

/// Whether the cell shows the object.
fn shows_object(image: &HeapImage, marks: &[bool], cell: Cell, object: &Object) -> bool
    requires sized { HasWords (image_heap image.now) }
    requires rows { HasRows (image_heap image.now) }
    requires sound { HasSoundCells (image_heap image.now) }
    requires stands { StandsIn (image_heap image.now) cell }
    ensures { let heap = image_heap image.now in IsTrue result
        ↔ ShowsObject heap marks.now cell (words_of_cell heap cell) object.now }
{
    match object {
        Object::Plain { cap, proto, fields } => {
            shows_plain(image, cell, *cap, *proto, fields.as_slice())
        }
        Object::List { elements } => shows_list(image, cell, elements.as_slice()),
        Object::Weak { entries } => shows_weak(image, marks, cell, entries.as_slice()),
    }
}
