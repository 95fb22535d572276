//! How far the used row of a region may go, and how many words of survivors it has.
ghost use Rattle.std.specs.Prelude.{◌≡◌, ◌+◌, ◌≤◌};
ghost use Rattle.heap_model.specs.Images.{image_heap};
ghost use Rattle.heap_model.specs.RegionRows.{StandsBetween};
ghost use Rattle.heap_check.specs.RegionRows.{BoundsFrom, bound_in, survivors_by, IsFew};
ghost use Rattle.heap_check.specs.RegionRows.{UsedRowEndsAt, CountsRowAt};

use heap_model::HeapImage;
use page_space::Region;

/// How far a row may go: to a limit, or, in a region that may be blank, to a word that is 0.
#[derive(Clone, Copy)]
pub(crate) struct Bound {
    pub(crate) limit: u32,
    pub(crate) blank: bool,
}

/// How far the row of a region may go that stands between two addresses.
pub(crate) fn bound_of(image: &HeapImage, start: u32, end: u32) -> Bound
    requires few { IsFew (image_heap image.now) }
    requires stands { StandsBetween image.now.regions start end }
    ensures { BoundsFrom (image_heap image.now) start end result }
{
    // Tells that the sizes are within their limits, so that no region is empty.
    image.regions.sizes_fit();
    bound_by(image.regions.region(start), start, end, image.used)
}

/// How far the row of this region may go, by its kind.
fn bound_by(region: Region, start: u32, end: u32, used: u32) -> Bound
    requires { start + used ≤ u32.MAX }
    ensures { result ≡ bound_in region start end used }
{
    match region {
        Region::Eden => Bound {
            limit: start + used,
            blank: false,
        },
        Region::Segment { half: _, worker: _ } => Bound {
            limit: end,
            blank: true,
        },
        _ => Bound {
            limit: end,
            blank: false,
        },
    }
}

/// How many words of survivors a row has.
pub(crate) fn survivors_at(image: &HeapImage, start: u32, end: u32, row_end: u32) -> u32
    requires few { IsFew (image_heap image.now) }
    requires stands { StandsBetween image.now.regions start end }
    requires ends { UsedRowEndsAt (image_heap image.now) start row_end }
    ensures counted { CountsRowAt (image_heap image.now) start result }
    ensures within { start + result ≤ end }
{
    image.regions.sizes_fit();
    survivors_of_region(image.regions.region(start), row_end - start)
}

/// How many of the words of a row are survivors', by the kind of its region.
fn survivors_of_region(region: Region, words: u32) -> u32
    ensures { result ≡ survivors_by region words }
{
    match region {
        Region::Segment { half: _, worker: _ } => words,
        _ => 0,
    }
}
