//! Whether the roots of a heap show what the variables are bound to.
ghost use Rattle.std.specs.Prelude.{◌≡◌, ◌↔◌, ◌<◌, IsTrue};
ghost use Rattle.handle_roots.specs.Roots.{IsRoot};
ghost use Rattle.heap_model.specs.Images.{image_heap};
ghost use Rattle.heap_model.specs.Showing.{ShowsHeld, ShowsBinding};
ghost use Rattle.heap_model.specs.Wholeness.{HasRows};
ghost use Rattle.image_walk.specs.Words.{HasWords};
ghost use Rattle.heap_check.specs.Roots.{HasRoots};
ghost use Rattle.slow_check.specs.Bindings.{ShowBindings, HeldBy};

use crate::places::is_place;
use handle_roots::{Held, held_by};
use heap_model::HeapImage;
use ideal_graph::{Ideal, Value};
use word_store::SliceWords;

/// Whether the root words of each variable show what it is bound to.
pub(crate) fn show_bindings(image: &HeapImage, ideal: &Ideal) -> bool
    requires sized { HasWords (image_heap image.now) }
    requires rows { HasRows (image_heap image.now) }
    requires roots { HasRoots (image_heap image.now) }
    ensures { IsTrue result ↔ ShowBindings (image_heap image.now) ideal.now.graph }
{
    for variable in 0..image.regions.variables() {
        if !shows_binding(image, ideal, variable) {
            return false;
        }
    }
    true
}

/// Whether the root words of a variable show what it is bound to.
fn shows_binding(image: &HeapImage, ideal: &Ideal, variable: u32) -> bool
    requires sized { HasWords (image_heap image.now) }
    requires rows { HasRows (image_heap image.now) }
    requires roots { HasRoots (image_heap image.now) }
    requires known { variable < image.now.regions.variables }
    ensures { IsTrue result ↔ ShowsBinding (image_heap image.now) ideal.now.graph variable }
{
    shows_held(image, root_of(image, variable), ideal.binding(variable))
}

/// What the root words of a variable stand for.
fn root_of(image: &HeapImage, variable: u32) -> Held
    requires sized { HasWords (image_heap image.now) }
    requires known { variable < image.now.regions.variables }
    requires root { IsRoot image.now.regions image.now.words variable }
    ensures { HeldBy (image_heap image.now) variable result }
{
    // No heap has 2^32 words or more.
    image.regions.sizes_fit();
    let mut words = SliceWords::new(image.words.as_slice());
    held_by(&mut words, &image.regions, variable)
}

/// Whether what a variable holds shows what it is bound to.
fn shows_held(image: &HeapImage, held: Held, value: Option<Value>) -> bool
    requires sized { HasWords (image_heap image.now) }
    requires rows { HasRows (image_heap image.now) }
    ensures { IsTrue result ↔ ShowsHeld (image_heap image.now) held value }
{
    match value {
        None => holds_nothing(held),
        Some(value) => shows_bound(image, held, value),
    }
}

/// Whether what a variable holds shows the value that it is bound to.
fn shows_bound(image: &HeapImage, held: Held, value: Value) -> bool
    requires sized { HasWords (image_heap image.now) }
    requires rows { HasRows (image_heap image.now) }
    ensures { IsTrue result ↔ ShowsHeld (image_heap image.now) held (Some value) }
{
    match value {
        Value::Undefined => holds_undefined(held),
        Value::Int(v) => holds_integer(held, v),
        Value::Ref(number) => holds_object(image, held, number),
    }
}

/// Whether a variable that holds this is bound to nothing.
fn holds_nothing(held: Held) -> bool
    ensures { IsTrue result ↔ (held ≡ Held.Unbound) }
{
    matches!(held, Held::Unbound)
}

/// Whether a variable that holds this holds `undefined`.
fn holds_undefined(held: Held) -> bool
    ensures { IsTrue result ↔ (held ≡ Held.Undefined) }
{
    matches!(held, Held::Undefined)
}

/// Whether a variable that holds this holds the integer.
fn holds_integer(held: Held, v: i64) -> bool
    ensures { IsTrue result ↔ (held ≡ Held.Int v) }
{
    match held {
        Held::Int(other) => other == v,
        _ => false,
    }
}

/// Whether a variable that holds this refers to the place of the object of this number.
fn holds_object(image: &HeapImage, held: Held, number: u32) -> bool
    requires sized { HasWords (image_heap image.now) }
    requires rows { HasRows (image_heap image.now) }
    ensures { IsTrue result
        ↔ ShowsHeld (image_heap image.now) held (Some (Value.Ref number)) }
{
    match held {
        Held::Ref(at) => is_place(image, number as usize, at),
        _ => false,
    }
}
