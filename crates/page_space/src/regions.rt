//! Where the regions of a heap stand, and in which of them an address is.
ghost use Rattle.std.specs.Prelude.{◌≡◌, ◌≢◌, ◌+◌, ◌*◌, ◌<◌, ◌≤◌, ◌↔◌, IsTrue, IfSome};
ghost use Rattle.std.specs.Prelude.{IsNone, MatchOption};
ghost use Rattle.tagged_word.specs.Shapes.{shapes_most};
ghost use Rattle.page_space.specs.declared.region.Region.TheVariants.{Layout, Mark, Outside, Root};
ghost use Rattle.page_space.specs.declared.region.Region.TheVariants.{Segment};
ghost use Rattle.page_space.specs.Sizes.{page_words, young_most, helpers_most, AreWithin};
ghost use Rattle.page_space.specs.Extents.{root_words, board_words, mark_number, words_count, segments_start};
ghost use Rattle.page_space.specs.Extents.{roots_start, layouts_start, marks_start, IsNumberOf};
ghost use Rattle.page_space.specs.Extents.{IsIn, StartsAt};
ghost use Rattle.page_space.specs.Extents.{IsRegion, IsInOne, CellsEndAt, is_page_region};
ghost use Rattle.page_space.specs.Extents.{is_young_region, is_cell_region};

use crate::region::Region;
use crate::sizes::{PAGE_WORDS, Sizes};
use std::marker::Model;
use tagged_word::shape;

/// The words of a root.
const ROOT_WORDS: u32 = 2;

/// The words of the board.
pub const BOARD_WORDS: u32 = 64;

/// The words of the board are those of its region.
pub fn board_words_are_those_of_its_region()
    ensures { BOARD_WORDS ≡ board_words }
{}

/// Where the regions of a heap stand, and how many words there are.
#[derive(Clone, Copy)]
pub struct Regions {
    sizes: Sizes,
    variables: u32,
    // Where each kind of region begins behind the pages. It is computed once, since reads and
    // writes of words ask for it.
    eden: u32,
    segments: u32,
    roots: u32,
    layouts: u32,
    marks: u32,
    board: u32,
    count: u32,
}

impl Model for Regions {
    ghost use Rattle.page_space.specs.Extents.{Space};

    ghost Value = { Space };

    ghost use Rattle.page_space.specs.Regions.{space_of, AreComputed, computed, computed-space_of};

    ghost view = { space_of };

    ghost invariant = { AreComputed };

    ghost inverse = { computed };

    ghost inverse_ok = { computed-space_of };
}

impl Regions {
    /// The regions of a heap of these sizes, with so many variables.
    pub fn new(sizes: Sizes, variables: u32) -> Regions
        requires { AreWithin sizes variables }
        ensures { result ≡ record { sizes = sizes; variables = variables } }
    {
        let eden = PAGE_WORDS * sizes.pages;
        let segments = eden + sizes.young;
        let roots = segments + 2 * half_words(sizes);
        let layouts = roots + ROOT_WORDS * variables;
        let marks = layouts + shape::COUNT;
        let board = marks + eden;
        Regions {
            sizes,
            variables,
            eden,
            segments,
            roots,
            layouts,
            marks,
            board,
            count: board + BOARD_WORDS,
        }
    }

    /// The sizes of the heap.
    pub fn sizes(&self) -> Sizes
        ensures { result ≡ self.now.sizes }
    {
        self.sizes
    }

    /// How many variables there are.
    pub fn variables(&self) -> u32
        ensures { result ≡ self.now.variables }
    {
        self.variables
    }

    /// How many words there are.
    #[inline(always)]
    pub fn count(&self) -> u32
        ensures counted { result ≡ words_count self.now }
        ensures within { AreWithin self.now.sizes self.now.variables }
    {
        self.count
    }

    /// The sizes are within their limits. The call says so, and does nothing else.
    #[inline(always)]
    pub fn sizes_fit(&self)
        ensures { AreWithin self.now.sizes self.now.variables }
    {
        let _words_count = self.count();
    }

    /// The region that an address is in.
    pub fn region(&self, a: u32) -> Region
        ensures inside { a < words_count self.now → IsIn self.now a result }
        ensures outside { (result ≡ Outside) ↔ (words_count self.now ≤ a) }
    {
        if a < self.roots {
            self.cell_region(a)
        } else if a < self.layouts {
            Region::Root((a - self.roots) / ROOT_WORDS)
        } else if a < self.marks {
            Region::Layout(a - self.layouts)
        } else if a < self.board {
            Region::Mark(a - self.marks)
        } else if a < self.count {
            Region::Board(a - self.board)
        } else {
            Region::Outside
        }
    }

    /// Whether a region is one of the heap's.
    pub fn has(&self, region: Region) -> bool
        ensures { IsTrue result ↔ IsRegion self.now region }
    {
        match region {
            Region::Page(page) => page < self.sizes.pages,
            Region::Eden => true,
            Region::Segment { half, worker } => half < 2 && worker <= self.sizes.helpers,
            Region::Root(variable) => variable < self.variables,
            Region::Layout(shape) => shape < shape::COUNT,
            Region::Mark(mark) => mark < self.eden,
            Region::Board(place) => place < BOARD_WORDS,
            Region::Outside => false,
        }
    }

    /// The first address of a region.
    pub fn start(&self, region: Region) -> u32
        requires { IsRegion self.now region }
        ensures starts { StartsAt self.now region result }
        ensures inside { result < words_count self.now }
    {
        match region {
            Region::Page(page) => page * PAGE_WORDS,
            Region::Eden => self.eden,
            Region::Segment { half, worker } => self.segment_start(half, worker),
            Region::Root(variable) => self.root_at(variable),
            Region::Layout(shape) => self.layout_at(shape),
            Region::Mark(mark) => self.marks + mark,
            Region::Board(place) => self.board + place,
            Region::Outside => unreachable!(),
        }
    }

    /// The address of the first word of a variable's root.
    #[inline(always)]
    pub fn root_at(&self, variable: u32) -> u32
        requires { variable < self.now.variables }
        ensures at { result ≡ roots_start self.now + root_words * variable }
        ensures starts { StartsAt self.now (Root variable) result }
        ensures inside { result + root_words ≤ words_count self.now }
    {
        self.roots + ROOT_WORDS * variable
    }

    /// The address of a shape's layout word.
    pub fn layout_at(&self, shape: u32) -> u32
        requires { shape < shapes_most }
        ensures at { result ≡ layouts_start self.now + shape }
        ensures starts { StartsAt self.now (Layout shape) result }
        ensures inside { result < words_count self.now }
    {
        self.layouts + shape
    }

    /// The address of the mark word of an address in a page.
    pub fn mark_of(&self, a: u32) -> u32
        requires { a < page_words * self.now.sizes.pages }
        ensures at { result ≡ marks_start self.now + mark_number a }
        ensures starts { StartsAt self.now (Mark (mark_number a)) result }
        ensures inside { result < words_count self.now }
    {
        self.marks + a
    }

    /// Whether an address is in a page.
    pub fn is_page(&self, a: u32) -> bool
        ensures { IsTrue result ↔ IsInOne self.now is_page_region a }
    {
        a < self.eden
    }

    /// Whether an address is in the young generation.
    pub fn is_young(&self, a: u32) -> bool
        ensures { IsTrue result ↔ IsInOne self.now is_young_region a }
    {
        self.eden <= a && a < self.roots
    }

    /// The first address behind the page, eden or segment that an address is in.
    pub fn cells_end(&self, a: u32) -> Option<u32>
        ensures cells { MatchOption result (¬ IsInOne self.now is_cell_region a)
            (λ end. CellsEndAt self.now a end) }
        ensures behind { IsNone result ↔ (roots_start self.now ≤ a) }
        ensures ahead { IfSome result (λ end. a < end) }
        ensures inside { IfSome result (λ end. end ≤ words_count self.now) }
    {
        if a < self.eden {
            Some((a / PAGE_WORDS + 1) * PAGE_WORDS)
        } else if a < self.segments {
            Some(self.segments)
        } else if a < self.roots {
            Some(self.segments + (self.segment_number(a) + 1) * self.sizes.young)
        } else {
            None
        }
    }

    /// The region of an address at which cells may stand.
    fn cell_region(&self, a: u32) -> Region
        requires { a < roots_start self.now }
        ensures is_in { IsIn self.now a result }
        ensures inside { result ≢ Outside }
    {
        if a < self.eden {
            return Region::Page(a / PAGE_WORDS);
        }
        if a < self.segments {
            return Region::Eden;
        }
        let number = self.segment_number(a);
        let each = self.sizes.helpers + 1;
        Region::Segment {
            half: number / each,
            worker: number % each,
        }
    }

    /// The number of the segment that an address is in, counted through both halves.
    fn segment_number(&self, a: u32) -> u32
        requires from { segments_start self.now ≤ a }
        requires below { a < roots_start self.now }
        ensures { IsNumberOf self.now a result }
    {
        (a - self.segments) / self.sizes.young
    }

    /// The first address of a segment.
    fn segment_start(&self, half: u32, worker: u32) -> u32
        requires { IsRegion self.now (Segment half worker) }
        ensures starts { StartsAt self.now (Segment half worker) result }
        ensures inside { result < words_count self.now }
    {
        let number = half * (self.sizes.helpers + 1) + worker;
        self.segments + number * self.sizes.young
    }
}

/// The words of the segments of one half.
fn half_words(sizes: Sizes) -> u32
    requires young { sizes.young ≤ young_most }
    requires helpers { sizes.helpers ≤ helpers_most }
    ensures words { result ≡ (sizes.helpers + 1) * sizes.young }
    ensures most { result ≤ 524288 }
{
    (sizes.helpers + 1) * sizes.young
}
