//! Whether an image shows a graph: the parts put together.
ghost use Rattle.std.specs.Prelude.{◌≡◌, ◌↔◌, IsTrue, IfOk, IfErr};
ghost use Rattle.object_graph.specs.Reach.{reach};
ghost use Rattle.heap_model.specs.Images.{image_heap};
ghost use Rattle.heap_model.specs.Showing.{Shows};
ghost use Rattle.heap_model.specs.Wholeness.{Whole};

use crate::bindings::show_bindings;
use crate::objects::show_reached;
use crate::paths::has_paths;
use crate::places::are_made;
use heap_model::HeapImage;
use ideal_graph::{Ideal, IdealStop};

/// Whether a whole heap shows the graph of the ideal meaning: its shapes are the graph's paths; its roots show the
/// bindings, and no other variable is bound; each object that can be reached has one place, which shows it; and each
/// object's cell carries the number of an object that was made. The time goes with the heap's cells times the objects
/// that can be reached, and more for references.
///
/// # Errors
/// Only `IdealStop::NoMemory`: there was no memory for a mark for each object.
pub fn shows(image: &HeapImage, ideal: &Ideal) -> Result<bool, IdealStop>
    requires whole { Whole (image_heap image.now) }
    ensures shown { IfOk result (λ answer.
        IsTrue answer ↔ Shows (image_heap image.now) ideal.now.graph) }
    ensures memory { IfErr result (λ stop. stop ≡ IdealStop.NoMemory) }
{
    let marks = ideal.reachable()?;
    Ok(shows_by(image, ideal, &marks))
}

/// Whether an image shows the graph, the objects of which that can be reached are marked.
pub(crate) fn shows_by(image: &HeapImage, ideal: &Ideal, marks: &[bool]) -> bool
    requires whole { Whole (image_heap image.now) }
    requires marked { marks.now ≡ reach ideal.now.graph }
    ensures { IsTrue result ↔ Shows (image_heap image.now) ideal.now.graph }
{
    if !has_paths(&image.shapes, ideal.paths()) {
        return false;
    }
    if !show_bindings(image, ideal) {
        return false;
    }
    if !ideal.is_unbound_from(image.regions.variables()) {
        return false;
    }
    if !show_reached(image, marks, ideal.objects()) {
        return false;
    }
    are_made(image, ideal.objects().len())
}
