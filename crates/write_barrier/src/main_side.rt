//! What the thread that runs commands has, and what it reads. Stores are in `writes.rt` and `fills.rt`,
//! room for new cells in `room.rt`, free runs of pages in `free_cells.rt`, variables in `roots.rt`, new field
//! paths in `paths.rt`.
ghost use Rattle.std.specs.Prelude.{◌≡◌, ◌+◌, ◌<◌, ◌^◌, ◌↔◌, length, slice_get, Some, refl};
ghost use Rattle.std.specs.Prelude.{IfSome, IsNone, false};
ghost use Rattle.std.specs.Borrow.{sem};
ghost use Rattle.std.proofs.Common.{◌∙◌};
ghost use Rattle.tagged_word.specs.Readings.{header_at};
ghost use Rattle.page_space.specs.Sizes.{AreWithin};
ghost use Rattle.page_space.specs.Extents.{eden_start, marks_start};
ghost use Rattle.shape_tree.specs.Shapes.{AreShapes, IsPathShape, IsLocated, shape_path, has_name};
ghost use Rattle.shape_tree.specs.CachedSlots.{IsCachedSlot};
ghost use Rattle.nursery.specs.Young.{IsYoung};
ghost use Rattle.write_barrier.specs.Seats.{heap_words};
ghost use Rattle.write_barrier.specs.Lending.{LendsNursery};
ghost use Rattle.write_barrier.specs.MutatorState.{heap_of};
ghost use Rattle.write_barrier.specs.Reading.{HasHeader, IsHeaderAt};

use free_runs::FreeRuns;
use heap_table::MainSeat;
use mark_barrier::GreyCells;
use nursery::Nursery;
use page_space::Regions;
use remembered_set::Remembered;
use shape_tree::{CachedSlot, Located, ShapeTree};
use std::marker::Model;
use tagged_word::Header;
use word_store::Reads;

/// The mutator: the seat of the thread that runs commands, the shapes, the young generation, the
/// free runs of pages, and which slots of pages refer to young cells. The seat may have a shared table, which
/// helpers read: each word that is put in a page, and each layout word, goes there too. Then it has a list of the grey
/// cells that wait with the mutator, too.
#[derive(Drop)]
pub struct Main {
    pub(crate) seat: MainSeat,
    pub(crate) shapes: ShapeTree,
    pub(crate) nursery: Nursery,
    pub(crate) free: FreeRuns,
    pub(crate) remembered: Remembered,
    pub(crate) grey: Option<GreyCells>,
}

impl Model for Main {
    ghost use Rattle.write_barrier.specs.MutatorState.{Mutator};

    ghost Value = { Mutator };

    ghost use Rattle.write_barrier.specs.Model.{mutator_of, IsTold};

    ghost view = { mutator_of };

    ghost invariant = { IsTold };
}

impl Main {
    /// Where the regions of the heap stand.
    #[inline(always)]
    pub fn regions(&self) -> Regions
        ensures regions { result ≡ self.now.seat.space }
        ensures heap_counted { length (heap_words self.now.seat) ≡ marks_start self.now.seat.space }
        ensures within { AreWithin self.now.seat.space.sizes self.now.seat.space.variables }
    {
        let regions = self.seat.regions();
        regions.sizes_fit();
        regions
    }

    /// The word at an address before the marks.
    #[inline(always)]
    pub fn word(&self, a: u32) -> u64
        requires { a < marks_start self.now.seat.space }
        ensures of_heap { slice_get (heap_words self.now.seat) a ≡ Some result }
    {
        self.seat.word(a)
    }

    /// The word at an offset of a cell, before the marks.
    #[inline(always)]
    pub fn slot(&self, cell: u32, offset: u32) -> u64
        requires { cell + offset < marks_start self.now.seat.space }
        ensures of_heap { slice_get (heap_words self.now.seat) (cell + offset) ≡ Some result }
    {
        self.seat.slot(cell, offset)
    }

    /// The header that stands at an address: that of each cell there.
    #[inline(always)]
    pub fn header(&self, at: u32) -> Header
        requires { HasHeader (heap_of self.now) at }
        ensures stands { header_at (heap_of self.now).words at ≡ Some result }
        ensures of_cell { IsHeaderAt (heap_of self.now) at result }
    {
        self.addresses_fit();
        Header::of_bits(self.word(at))
    }

    /// No address of a heap is past 32 bits: there is a word for each address before the marks, and the
    /// regions are within their limits. What is recorded is of pages. The call says so, and does nothing else.
    #[inline(always)]
    pub fn addresses_fit(&self)
        ensures heap_counted { length (heap_words self.now.seat) ≡ marks_start self.now.seat.space }
        ensures within { AreWithin self.now.seat.space.sizes self.now.seat.space.variables }
        ensures fit { marks_start self.now.seat.space < 2 ^ 32 }
        ensures bounded { self.now.recorded.bound ≡ eden_start self.now.seat.space }
    {
        let _ = &self.remembered;
        let _regions = self.regions();
    }

    /// There are no more paths than shapes, and their layouts are as they should be. The call says
    /// so, and does nothing else.
    #[inline(always)]
    pub fn paths_fit(&self)
        ensures good { AreShapes self.now.paths }
    {
        let _paths = self.shapes.paths();
    }

    /// Survivors and used words are no more than the words of the young generation. The call says so,
    /// and does nothing else.
    #[inline(always)]
    pub fn used_fits(&self)
        ensures is_young { IsYoung self.now.young }
    {
        let _used = self.nursery.used();
    }

    /// How many words of eden are used.
    pub fn used(&self) -> u32
        ensures used { result ≡ self.now.young.used }
        ensures is_young { IsYoung self.now.young }
    {
        self.nursery.used()
    }

    /// The shapes.
    pub fn shapes(&self) -> &ShapeTree
        ensures { result.now ≡ self.now.paths }
    {
        &self.shapes
    }

    /// Where the field of this name stands in the path of a shape.
    #[inline(always)]
    pub fn lookup(&mut self, shape: u32, name: u32) -> Option<Located>
        requires { IsPathShape self.old.paths shape }
        ensures found { IfSome result (λ found.
            IsLocated self.old.paths found × (found.shape ≡ shape) × (found.name ≡ name)) }
        ensures none { IsNone result ↔ (has_name (shape_path self.old.paths shape) name ≡ false) }
        ensures same { self.new ≡ self.old }
    {
        self.shapes.lookup(shape, name)
    }

    /// What the look-up cache has of this name in the path of a shape. Nothing is sought, and the shape may be any.
    #[inline(always)]
    pub fn cached_slot(&self, shape: u32, name: u32) -> CachedSlot
        ensures { IsCachedSlot self.now.paths shape name result }
    {
        self.shapes.cached_slot(shape, name)
    }

    /// The shapes, and the words before the marks, taken out of the heap. It takes no memory.
    pub fn into_parts(self) -> (ShapeTree, Vec<u64>)
        ensures paths { result.0 ≡ self.paths }
        ensures words { result.1.items ≡ heap_words self.seat }
    {
        let Main {
            seat,
            shapes,
            nursery: _,
            free: _,
            remembered: _,
            grey: _,
        } = self;
        (shapes, seat.into_words())
    }

    /// The nursery. No other part changes.
    pub fn nursery_mut(&mut self) -> &mut Nursery
        ensures* lends { sem 𝓛 (LendsNursery self.entry result) }
        ensures young { result.now ≡ self.old.young }
    {
        &mut self.nursery
    }
}

impl Reads for Main {
    ghost words = { λ main. heap_words main.seat };

    ghost IsSteady = { λ _. Unit {0} };

    // A read changes nothing.
    ghost Rest = { λ old new. new ≡ old };

    ghost rest_itself = { λ _. refl };

    ghost rest_again = { λ _ _ _ first then. then ∙ first };

    ghost stays_steady = { λ _ _ _ _. tt };

    #[inline(always)]
    fn count(&self) -> u32 {
        self.seat.count()
    }

    #[inline(always)]
    fn load(&mut self, a: u32) -> u64 {
        // There are as many of these words as addresses before the marks.
        self.addresses_fit();
        self.word(a)
    }
}
