//! Flaws of how many words there are, and of layout words.
ghost use Rattle.std.specs.Prelude.{◌≡◌, ◌+◌, ◌<◌, Some, slice_get};
ghost use Rattle.tagged_word.specs.Shapes.{shapes_most};
ghost use Rattle.page_space.specs.Extents.{layouts_start};
ghost use Rattle.shape_tree.specs.ShapeLayouts.{layout_word};
ghost use Rattle.heap_model.specs.Images.{image_heap};
ghost use Rattle.heap_check.specs.RegionRows.{IsFew};
ghost use Rattle.image_walk.specs.Words.{HasWords};
ghost use Rattle.heap_check.specs.Walks.{HasLayoutWords};
ghost use Rattle.heap_check.specs.Firsts.{IsVerdict};
ghost use Rattle.heap_check.specs.Frames.{BreaksUsed, BreaksLength, BreaksLayout, BreaksLayouts};

use crate::flaw::Flaw;
use heap_model::HeapImage;
use shape_tree::ShapeTree;
use tagged_word::shape;

/// The flaw of how many words of eden are used.
pub(crate) fn flaw_of_used(image: &HeapImage) -> Option<Flaw>
    ensures { let heap = image_heap image.now in IsVerdict (IsFew heap) (BreaksUsed heap) result }
{
    let young = image.regions.sizes().young;
    if image.used <= young {
        return None;
    }
    Some(Flaw {
        at: image.regions.count(),
        found: image.used as u64,
        wanted: young as u64,
    })
}

/// The flaw of how many words there are.
pub(crate) fn flaw_of_length(image: &HeapImage) -> Option<Flaw>
    ensures { let heap = image_heap image.now in IsVerdict (HasWords heap) (BreaksLength heap) result }
{
    let at = image.regions.count();
    let found = image.words.as_slice().len() as u64;
    let wanted = image.regions.mark_of(0) as u64;
    if found == wanted {
        return None;
    }
    Some(Flaw { at, found, wanted })
}

/// The first flaw of the layout words.
pub(crate) fn flaw_of_layouts(image: &HeapImage) -> Option<Flaw>
    requires { HasWords (image_heap image.now) }
    ensures { let heap = image_heap image.now in IsVerdict (HasLayoutWords heap) (BreaksLayouts heap) result }
{
    for shape in 0..shape::COUNT {
        if let Some(flaw) = flaw_of_layout(image, shape) {
            return Some(flaw);
        }
    }
    None
}

/// The flaw of the layout word of a shape.
fn flaw_of_layout(image: &HeapImage, shape: u32) -> Option<Flaw>
    requires sized { HasWords (image_heap image.now) }
    requires known { shape < shapes_most }
    ensures { let heap = image_heap image.now in
        IsVerdict (slice_get heap.words (layouts_start heap.space + shape) ≡ Some (layout_word heap.paths shape))
        (BreaksLayout heap shape) result }
{
    let at = image.regions.layout_at(shape);
    let wanted = layout_word_of(&image.shapes, shape);
    let found = image.words.as_slice()[at as usize];
    if found == wanted {
        return None;
    }
    Some(Flaw { at, found, wanted })
}

/// The layout word of a shape; 0 where it is not in use.
fn layout_word_of(shapes: &ShapeTree, shape: u32) -> u64
    ensures { result ≡ layout_word shapes.now shape }
{
    if shape == 0 || shape >= shape::PATHS + shapes.paths() {
        return 0;
    }
    shapes.layout(shape).word()
}
