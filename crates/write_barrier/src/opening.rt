//! How a heap is opened: into words of 0 goes what is not 0.
ghost use Rattle.std.specs.Prelude.{◌≡◌, ℕ, ◌+◌, ◌*◌, ◌<◌, Bool, [], slice_get, IfOk, IfSome, is_some};
ghost use Rattle.page_space.specs.Sizes.{page_words};
ghost use Rattle.page_space.specs.Extents.{eden_start, roots_start, layouts_start};
ghost use Rattle.object_graph.specs.Graphs.{start};
ghost use Rattle.handle_roots.specs.Roots.{root_at};
ghost use Rattle.mark_barrier.specs.Waiting.{HasRoom, IsEmpty};
ghost use Rattle.heap_table.specs.Phases.{Quiet};
ghost use Rattle.heap_table.specs.Seats.{IsFresh};
ghost use Rattle.write_barrier.specs.Seats.{heap_words, table_of};
ghost use Rattle.write_barrier.specs.MutatorState.{IsOneGap, MainShows, IsOpened};
ghost use Rattle.write_barrier.specs.Opening.{ChangesWithin, AreGaps, AreUnbound, IsLaid, IsStarted};

use crate::layouts::put_layouts;
use crate::main_side::Main;
use free_runs::FreeRuns;
use heap_table::MainSeat;
use mark_barrier::GreyCells;
use nursery::Nursery;
use page_space::{PAGE_WORDS, Regions};
use remembered_set::Remembered;
use shape_tree::ShapeTree;
use std::alloc::Global;
use tagged_word::cell::LENGTH;
use tagged_word::{Header, NoMemory, Word, odd, shape};

/// Lists of grey cells, where the seat has a shared table.
///
/// # Errors
/// Out of memory.
fn list_for(alloc: Global, seat: &MainSeat, regions: Regions) -> Result<Option<GreyCells>, NoMemory>
    ensures listed { IfOk result (λ grey. is_some grey ≡ is_some seat.now.shared) }
    ensures room { IfOk result (λ grey. IfSome grey (λ lists. HasRoom lists (eden_start regions))) }
    ensures empty { IfOk result (λ grey. IfSome grey IsEmpty) }
{
    if seat.is_shared() {
        let grey = GreyCells::new(alloc, regions)?;
        Ok(Some(grey))
    } else {
        Ok(None)
    }
}

impl Main {
    /// Opens a heap over words of 0: no object, each page one gap and one free run, each variable bound to
    /// nothing. It keeps the seat, and so the shared table, where there is one.
    ///
    /// # Errors
    /// Memory was refused, for the shapes, the free runs, what is recorded of pages, or the lists of grey cells.
    pub fn open(alloc: Global, seat: MainSeat, regions: Regions) -> Result<Main, NoMemory>
        requires { (shared : Bool) × IsFresh regions shared seat }
        ensures opened { IfOk result (λ main. MainShows main start × IsOpened main) }
        ensures regions { IfOk result (λ main. main.seat.space ≡ regions) }
        ensures table { IfOk result (λ main. main.seat.shared ≡ table_of seat) }
    {
        let shapes = ShapeTree::new(alloc)?;
        let nursery = Nursery::new(&regions);
        regions.sizes_fit();
        let pages = regions.sizes().pages;
        let free = FreeRuns::new(alloc, pages)?;
        let remembered = Remembered::new(alloc, pages)?;
        let grey = list_for(alloc, &seat, regions)?;
        let mut seat = seat;
        put_layouts(&mut seat, &shapes, 1);
        let mut main = Main {
            seat,
            shapes,
            nursery,
            free,
            remembered,
            grey,
        };
        main.start(&regions);
        Ok(main)
    }

    /// Puts all else that is not 0 in a heap that has nothing but its layout words.
    fn start(&mut self, regions: &Regions)
        requires { IsLaid self.old regions.now }
        ensures started { IsStarted self.new }
        ensures space { self.new.seat.space ≡ regions.now }
        ensures table { self.new.seat.shared ≡ self.old.seat.shared }
    {
        self.put_gaps();
        self.put_unbound();
        // There are as many words as addresses.
        self.addresses_fit();
    }

    /// Makes a page one gap.
    fn put_gap(&mut self, page: u32)
        requires quiet { self.old.seat.phase ≡ Quiet }
        requires there { page < self.old.seat.space.sizes.pages }
        ensures gap { IsOneGap (heap_words self.new.seat) page }
        ensures changes { let at = page_words * page in
            ChangesWithin self.old self.new at (at + page_words) }
    {
        // There are as many words as addresses before the marks, and pages are among them.
        self.addresses_fit();
        let at = page * PAGE_WORDS;
        let header = Header {
            shape: shape::GAP,
            object: 0,
        };
        self.put_owned(at, header.word().0);
        self.put_owned(at + LENGTH, PAGE_WORDS as u64);
    }

    /// Makes each page one gap.
    fn put_gaps(&mut self)
        requires quiet { self.old.seat.phase ≡ Quiet }
        ensures gaps { AreGaps self.new }
        ensures changes { ChangesWithin self.old self.new 0 (eden_start self.old.seat.space) }
    {
        let pages = self.regions().sizes().pages;
        for page in 0..pages {
            self.put_gap(page);
        }
    }

    /// Binds each variable to nothing. The second words stay.
    fn put_unbound(&mut self)
        requires quiet { self.old.seat.phase ≡ Quiet }
        ensures firsts { AreUnbound self.new }
        ensures seconds { (variable : ℕ) → variable < self.old.seat.space.variables
            → let second = root_at self.old.seat.space variable + 1 in
            let words = heap_words self.old.seat in
            slice_get (heap_words self.new.seat) second ≡ slice_get words second }
        ensures changes { let space = self.old.seat.space in
            ChangesWithin self.old self.new (roots_start space) (layouts_start space) }
    {
        let regions = self.regions();
        for variable in 0..regions.variables() {
            let root = self.root_of(variable);
            self.put_own(root, Word::odd(odd::UNBOUND).0);
        }
    }
}
