//! Where a scavenge takes cells from, and where their copies go.
ghost use Rattle.std.specs.Prelude.{ℕ, ◌≤◌, ◌↔◌, Bool, IsTrue};
ghost use Rattle.page_space.specs.Extents.{Space};
ghost use Rattle.scavenger.specs.Following.{IsFromSpace};
ghost use Rattle.scavenger.specs.Walking.{AreSpaces, IsToPromote};

use page_space::{Region, Regions};

/// Where eden and the half that is left begin and end, and the room that copies go to. They are
/// computed once, since each slot asks for them.
#[derive(Clone, Copy)]
pub(crate) struct Spaces {
    /// The first address of eden.
    pub(crate) eden: u32,
    /// The address behind the last word of eden.
    pub(crate) eden_end: u32,
    /// The half that is left: 0 or 1.
    pub(crate) half: u32,
    /// The first address of its segments.
    pub(crate) left: u32,
    /// The address behind the last word of them.
    pub(crate) left_end: u32,
    /// The first address of the main side's segment of the other half.
    pub(crate) room: u32,
    /// The address behind the last word of it.
    pub(crate) room_end: u32,
    /// Whether all cells are to be promoted, and not survivors alone.
    pub(crate) promote_all: bool,
}

impl Spaces {
    /// The spaces of a scavenge that leaves a half.
    pub(crate) fn new(regions: &Regions, half: u32, promote_all: bool) -> Spaces
        requires { half ≤ 1 }
        ensures { AreSpaces regions.now half promote_all result }
    {
        // The sizes are within their limits.
        regions.sizes_fit();
        let sizes = regions.sizes();
        let helpers = sizes.helpers;
        let eden = regions.start(Region::Eden);
        let left = regions.start(Region::Segment { half, worker: 0 });
        let room = regions.start(Region::Segment {
            half: 1 - half,
            worker: helpers,
        });
        Spaces {
            eden,
            eden_end: eden + sizes.young,
            half,
            left,
            left_end: left + sizes.young * (helpers + 1),
            room,
            room_end: room + sizes.young,
            promote_all,
        }
    }

    /// Whether a cell at an address, which is left, is to be promoted: it is a survivor, or all are.
    #[inline(always)]
    pub(crate) fn are_promoted(&self, at: u32) -> bool
        ensures { (space : Space) (half : ℕ) (all : Bool) → AreSpaces space half all self.now →
            IsTrue result ↔ IsToPromote space all at }
    {
        self.promote_all || self.eden_end <= at
    }

    /// Whether an address is in eden or in the half that is left.
    #[inline(always)]
    pub(crate) fn are_left(&self, at: u32) -> bool
        ensures { (space : Space) (half : ℕ) (all : Bool) → AreSpaces space half all self.now →
            IsTrue result ↔ IsFromSpace space half at }
    {
        (self.eden <= at && at < self.eden_end) || (self.left <= at && at < self.left_end)
    }
}
