//! The words of a heap that the seat reads and writes plainly.
ghost use Rattle.std.specs.Prelude.{◌≡◌, ◌+◌, ◌<◌, ◌≤◌, ◌^◌, ◌++◌, length, take, drop, replicate};
ghost use Rattle.std.specs.Prelude.{slice_get, slice_set, IfOk, Some};
ghost use Rattle.tagged_word.specs.Shapes.{shapes_most};
ghost use Rattle.page_space.specs.Extents.{eden_start, layouts_start, marks_start};
ghost use Rattle.word_store.specs.Copies.{copied};
ghost use Rattle.shared_table.specs.Owned.{zeros};

use page_space::{Region, Regions};
use std::alloc::Global;
use std::marker::Model;
use tagged_word::NoMemory;

/// Where the regions of a heap stand, and a word for each address before the marks. Threads may be lent it.
#[derive(Drop)]
pub struct OwnWords {
    regions: Regions,
    // How many words stand before the marks. It is computed once, since each step asks for it.
    heap_count: u32,
    items: Vec<u64>,
}

impl Model for OwnWords {
    ghost use Rattle.shared_table.specs.Owned.{Own};

    ghost Value = { Own };

    ghost use Rattle.shared_table.specs.OwnKept.{own_of, IsKept};

    ghost view = { own_of };

    ghost invariant = { IsKept };
}

impl OwnWords {
    /// Words of 0. It takes all the memory that they need.
    ///
    /// # Errors
    /// Out of memory.
    pub fn open(alloc: Global, regions: Regions) -> Result<OwnWords, NoMemory>
        ensures opened { IfOk result (λ own. own ≡ zeros regions) }
    {
        // The sizes are within their limits, so there is a first mark.
        regions.sizes_fit();
        let heap_count = regions.start(Region::Mark(0));
        let items = vec![in alloc; 0u64; heap_count as usize]?;
        Ok(OwnWords {
            regions,
            heap_count,
            items,
        })
    }

    /// Where the regions of the heap stand.
    #[inline(always)]
    pub fn regions(&self) -> Regions
        ensures regions { result ≡ self.now.space }
        ensures counted { length self.now.words ≡ marks_start self.now.space }
    {
        self.regions
    }

    /// How many words there are.
    #[inline(always)]
    pub fn count(&self) -> u32
        ensures count { result ≡ marks_start self.now.space }
        ensures counted { length self.now.words ≡ marks_start self.now.space }
    {
        self.heap_count
    }

    /// There is a word for each address before the marks, and no address is past 32 bits. The call says so, and does
    /// nothing else.
    #[inline(always)]
    pub fn words_fit(&self)
        ensures counted { length self.now.words ≡ marks_start self.now.space }
        ensures fit { marks_start self.now.space < 2 ^ 32 }
    {
        let _count = self.count();
    }

    /// The words before the marks, in order.
    #[inline(always)]
    pub fn as_slice(&self) -> &[u64]
        ensures { result.now ≡ self.now.words }
    {
        self.items.as_slice()
    }

    /// The word at an address before the marks.
    #[inline(always)]
    pub fn word(&self, a: u32) -> u64
        requires { a < marks_start self.now.space }
        ensures of_heap { slice_get self.now.words a ≡ Some result }
    {
        self.items[a as usize]
    }

    /// The word at an offset of a cell, before the marks. The sum is taken in 64 bits, which it fits
    /// whatever the two are.
    #[inline(always)]
    pub fn slot(&self, cell: u32, offset: u32) -> u64
        requires { cell + offset < marks_start self.now.space }
        ensures of_heap { slice_get self.now.words (cell + offset) ≡ Some result }
    {
        self.items[cell as usize + offset as usize]
    }

    /// Puts a word at an address before the marks. No other word changes.
    #[inline(always)]
    pub fn put(&mut self, a: u32, word: u64)
        requires { a < marks_start self.old.space }
        ensures { self.new ≡ record self.old { words = slice_set self.old.words a word } }
    {
        self.items[a as usize] = word;
    }

    /// Puts a word at an offset of a cell, before the marks. No other word changes.
    #[inline(always)]
    pub fn put_slot(&mut self, cell: u32, offset: u32, word: u64)
        requires { cell + offset < marks_start self.old.space }
        ensures { self.new ≡ record self.old { words = slice_set self.old.words (cell + offset) word } }
    {
        self.items[cell as usize + offset as usize] = word;
    }

    /// Puts a word of a page. No other word changes.
    #[inline(always)]
    pub fn put_in_page(&mut self, a: u32, word: u64)
        requires { a < eden_start self.old.space }
        ensures { self.new ≡ record self.old { words = slice_set self.old.words a word } }
    {
        // Pages stand before the marks.
        self.words_fit();
        self.put(a, word);
    }

    /// Puts a layout word. No other word changes.
    #[inline(always)]
    pub fn put_layout(&mut self, shape: u32, word: u64)
        requires { shape < shapes_most }
        ensures { let at = layouts_start self.old.space + shape in
            self.new ≡ record self.old { words = slice_set self.old.words at word } }
    {
        let at = self.regions.layout_at(shape);
        self.put(at, word);
    }

    /// Copies so many words to another address, all before the marks. No other word changes.
    #[inline]
    pub fn copy(&mut self, from: u32, to: u32, count: u32)
        requires within { from + count ≤ marks_start self.old.space }
        requires room { to + count ≤ marks_start self.old.space }
        ensures { self.new ≡ record self.old { words = copied self.old.words from to count } }
    {
        let start = from as usize;
        self.items
            .copy_within(start..start + count as usize, to as usize);
    }

    /// Puts one word at so many addresses from one on, before the marks. No other word changes.
    #[inline]
    pub fn fill(&mut self, at: u32, count: u32, word: u64)
        requires within { at + count ≤ marks_start self.old.space }
        ensures { let words = self.old.words in
            self.new ≡ record self.old { words = take at words ++ replicate count word ++ drop (at + count) words } }
    {
        let start = at as usize;
        self.items[start..start + count as usize].fill(word);
    }

    /// The words. It takes no memory.
    pub fn into_words(self) -> Vec<u64>
        ensures { result.items ≡ self.words }
    {
        let OwnWords {
            regions: _,
            heap_count: _,
            items,
        } = self;
        items
    }
}
