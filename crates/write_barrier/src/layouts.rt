//! Layout words, among the own words and those that helpers read.
ghost use Rattle.std.specs.Prelude.{◌≡◌, ◌+◌, ◌<◌, ◌≤◌, length, slice_get, Some, IfSome};
ghost use Rattle.tagged_word.specs.Shapes.{first_path_shape};
ghost use Rattle.shape_tree.specs.ShapeLayouts.{IsInUse, layout_word};
ghost use Rattle.heap_table.specs.Seats.{with_layout};
ghost use Rattle.write_barrier.specs.Layouts.{HasBoth, HasBothBelow, PutsLayouts};

use heap_table::{MainSeat, Phase};
use shape_tree::ShapeTree;
use tagged_word::shape;

/// Makes the layout word of a shape in use that of the shapes.
#[cold]
#[inline(never)]
fn put_layout(seat: &mut MainSeat, shapes: &ShapeTree, shape: u32)
    requires unused { IfSome seat.old.shared (λ beside. slice_get beside.layouts shape ≡ Some 0) }
    requires in_use { IsInUse shapes.now shape }
    ensures { seat.new ≡ with_layout seat.old shape (layout_word shapes.now shape) }
{
    // There are no more paths than shapes.
    shapes.paths_fit();
    let word = shapes.layout(shape).word();
    // In an open cycle there is a shared table.
    seat.layouts_fit();
    if seat.phase() == Phase::Mark {
        seat.add_layout(shape, word);
    } else {
        seat.put_layout(shape, word);
    }
}

/// Puts the layout words of the shapes from one on: those of the shapes below it are there, and from it on they are 0.
#[inline(always)]
pub(crate) fn put_layouts(seat: &mut MainSeat, shapes: &ShapeTree, first: u32)
    requires from { 1 ≤ first }
    requires below { first ≤ first_path_shape + length shapes.now }
    requires layouts { HasBothBelow seat.old shapes.now first }
    ensures layouts { HasBoth seat.new shapes.now }
    ensures changes { PutsLayouts seat.old seat.new }
{
    // There are as many words as addresses before the marks.
    let _regions = seat.regions();
    let paths = shapes.paths();
    for shape in first..shape::PATHS + paths {
        put_layout(seat, shapes, shape);
    }
}
