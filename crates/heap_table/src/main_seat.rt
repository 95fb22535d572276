//! The seat of the thread that runs commands: how it is opened, and single words. Stretches of words are in `copies`,
//! steps of marking in `marking`.
ghost use Rattle.std.specs.Prelude.{◌≡◌, ◌+◌, ◌<◌, ◌≤◌, length, slice_get, slice_set};
ghost use Rattle.std.specs.Prelude.{IfOk, IsTrue, Some, is_some, true};
ghost use Rattle.tagged_word.specs.Shapes.{shapes_most};
ghost use Rattle.page_space.specs.Extents.{Space, eden_start, marks_start};
ghost use Rattle.shared_table.specs.declared.phase.Phase.TheVariants.{Mark};
ghost use Rattle.shared_table.specs.Owned.{zeros};
ghost use Rattle.heap_table.specs.Seats.{IsFresh, heap_words, with_layout, RestStays};
ghost use Rattle.heap_table.specs.Staying.{rest_stays_itself, rest_stays_again};

use page_space::{PAGE_WORDS, Regions};
use shared_table::{Counts, MainSide, OwnWords, Phase, SharedTable};
use std::alloc::Global;
use std::marker::Model;
use tagged_word::{NoMemory, shape};
use word_store::Reads;

/// The table of a heap's words.
pub struct HeapTable;

impl HeapTable {
    /// Opens a table with a word of 0 for each address before the marks, and takes the main seat. It takes
    /// all the memory that these words need, and a shared table needs, where one is asked for.
    ///
    /// # Errors
    /// Out of memory.
    pub fn open(alloc: Global, regions: Regions, shared: bool) -> Result<MainSeat, NoMemory>
        ensures opened { IfOk result (λ seat. IsFresh regions shared seat) }
    {
        let own = OwnWords::open(alloc, regions)?;
        if shared {
            MainSeat::share(alloc, own)
        } else {
            Ok(MainSeat { own, shared: None })
        }
    }
}

/// The seat of the thread that runs commands. Its own words stay plain, and it reads no others. Where a shared table
/// was asked for, each word that is put in a page goes to both.
#[derive(Drop)]
pub struct MainSeat {
    pub(crate) own: OwnWords,
    pub(crate) shared: Option<MainSide>,
}

impl Model for MainSeat {
    ghost use Rattle.heap_table.specs.Seats.{Seat};

    ghost Value = { Seat };

    ghost use Rattle.heap_table.specs.Seated.{seat_of, IsSeated};

    ghost view = { seat_of };

    ghost invariant = { IsSeated };
}

impl MainSeat {
    /// A seat with a shared table, for own words that are all 0.
    fn share(alloc: Global, own: OwnWords) -> Result<MainSeat, NoMemory>
        requires { (regions : Space) × (own ≡ zeros regions) }
        ensures { (regions : Space) → own ≡ zeros regions → IfOk result (λ seat. IsFresh regions true seat) }
    {
        let regions = own.regions();
        regions.sizes_fit();
        let counts = Counts {
            old: regions.sizes().pages * PAGE_WORDS,
            shapes: shape::COUNT,
        };
        let side = SharedTable::open(alloc, counts)?;
        Ok(MainSeat {
            own,
            shared: Some(side),
        })
    }

    /// The phase of the heap.
    #[inline(always)]
    pub fn phase(&self) -> Phase
        ensures { result ≡ self.now.phase }
    {
        match &self.shared {
            Some(side) => side.phase(),
            None => Phase::Quiet,
        }
    }

    /// Whether there is a shared table.
    #[inline(always)]
    pub fn is_shared(&self) -> bool
        ensures { result ≡ is_some self.now.shared }
    {
        self.shared.is_some()
    }

    /// Where the regions of the heap stand.
    #[inline(always)]
    pub fn regions(&self) -> Regions
        ensures regions { result ≡ self.now.space }
        ensures heap_counted { length (heap_words self.now) ≡ marks_start self.now.space }
    {
        self.own.regions()
    }

    /// The own words. A thread that is lent them reads them while no command runs.
    #[inline(always)]
    pub fn own(&self) -> &OwnWords
        ensures space { result.now.space ≡ self.now.space }
        ensures words { result.now.words ≡ heap_words self.now }
    {
        &self.own
    }

    /// The word at an address before the marks.
    #[inline(always)]
    pub fn word(&self, a: u32) -> u64
        requires { a < marks_start self.now.space }
        ensures of_heap { slice_get (heap_words self.now) a ≡ Some result }
    {
        self.own.word(a)
    }

    /// The word at an offset of a cell, before the marks. The sum is taken in 64 bits, which it fits
    /// whatever the two are.
    #[inline(always)]
    pub fn slot(&self, cell: u32, offset: u32) -> u64
        requires { cell + offset < marks_start self.now.space }
        ensures of_heap { slice_get (heap_words self.now) (cell + offset) ≡ Some result }
    {
        self.own.slot(cell, offset)
    }

    /// Puts a word among the own ones alone, behind the pages or where there is no shared table. No other word
    /// changes.
    #[inline(always)]
    pub fn put_own(&mut self, a: u32, word: u64)
        requires own { IsTrue (is_some self.old.shared) → eden_start self.old.space ≤ a }
        requires within { a < marks_start self.old.space }
        ensures put { self.new ≡ record self.old { table = slice_set self.old.table a word } }
        ensures heap { heap_words self.new ≡ slice_set (heap_words self.old) a word }
        ensures rest { RestStays self.old self.new }
    {
        self.own.put(a, word);
    }

    /// Puts a word behind the pages at an offset of a cell, among the own ones alone. No other word changes.
    #[inline(always)]
    pub fn put_own_slot(&mut self, cell: u32, offset: u32, word: u64)
        requires own { eden_start self.old.space ≤ cell + offset }
        requires within { cell + offset < marks_start self.old.space }
        ensures put { let table = slice_set self.old.table (cell + offset) word in
            self.new ≡ record self.old { table = table } }
        ensures heap { heap_words self.new ≡ slice_set (heap_words self.old) (cell + offset) word }
        ensures rest { RestStays self.old self.new }
    {
        self.own.put_slot(cell, offset, word);
    }

    /// Puts a layout word, among those that helpers read too, while no cycle is open or while it waits. No other word
    /// changes.
    pub fn put_layout(&mut self, shape: u32, word: u64)
        requires idle { self.old.phase ≡ Mark → ⊥ }
        requires within { shape < shapes_most }
        ensures put { self.new ≡ with_layout self.old shape word }
    {
        self.own.put_layout(shape, word);
        if let Some(side) = &mut self.shared {
            side.put_layout(shape, word);
        }
    }

    /// The words of the table. It takes no memory.
    pub fn into_words(self) -> Vec<u64>
        ensures { result.items ≡ heap_words self }
    {
        let MainSeat { own, shared: _ } = self;
        own.into_words()
    }
}

impl Reads for MainSeat {
    ghost words = { heap_words };

    ghost IsSteady = { λ _. Unit {0} };

    ghost Rest = { RestStays };

    ghost rest_itself = { rest_stays_itself };

    ghost rest_again = { rest_stays_again };

    ghost stays_steady = { λ _ _ _ _. tt };

    #[inline(always)]
    fn count(&self) -> u32 {
        self.own.count()
    }

    #[inline(always)]
    fn load(&mut self, a: u32) -> u64 {
        self.own.words_fit();
        self.word(a)
    }
}
