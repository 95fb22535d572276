//! The words of an image: those of the cells, of the roots and of the layouts, and else 0.
ghost use Rattle.std.specs.Prelude.{◌≡◌, ◌≤◌, length};
ghost use Rattle.page_space.specs.Extents.{marks_start, roots_start};
ghost use Rattle.write_barrier.specs.Seats.{heap_words};
ghost use Rattle.heap_model.specs.RegionRows.{StandsBetween};
ghost use Rattle.heap_model.specs.Wholeness.{Whole};
ghost use Rattle.write_barrier.specs.MutatorState.{heap_of};
ghost use Rattle.collector.specs.Images.{AreWordsOf};
ghost use Rattle.collector.specs.Filling.{CopiesWithin, BlanksWithin, FillsWithin};

use heap_walk::row_end;
use word_store::Reads;
use write_barrier::Main;

/// Copies the words from an address to another.
fn copy_words(main: &Main, words: &mut [u64], from: u32, to: u32)
    requires ordered { from ≤ to }
    requires within { to ≤ marks_start main.now.seat.space }
    requires room { length words.old ≡ marks_start main.now.seat.space }
    ensures { CopiesWithin (heap_words main.now.seat) words.old words.new from to }
{
    for at in from..to {
        words[at as usize] = main.word(at);
    }
}

/// Makes the words from an address to another 0.
fn blank_words(words: &mut [u64], from: u32, to: u32)
    requires ordered { from ≤ to }
    requires within { to ≤ length words.old }
    ensures { BlanksWithin words.old words.new from to }
{
    for at in from..to {
        words[at as usize] = 0;
    }
}

/// Puts the words of the region that stands between two addresses.
fn fill_region(main: &Main, words: &mut [u64], start: u32, end: u32)
    requires whole { Whole (heap_of main.now) }
    requires stands { StandsBetween main.now.seat.space start end }
    requires room { length words.old ≡ marks_start main.now.seat.space }
    ensures { FillsWithin (heap_of main.now) words.old words.new start end }
{
    let behind = row_end(main, start, end);
    copy_words(main, words, start, behind);
    blank_words(words, behind, end);
}

/// Puts the words of all regions of cells, and answers where the roots begin.
fn fill_cells(main: &Main, words: &mut [u64]) -> u32
    requires whole { Whole (heap_of main.now) }
    requires room { length words.old ≡ marks_start main.now.seat.space }
    ensures filled { let roots = roots_start main.now.seat.space in
        FillsWithin (heap_of main.now) words.old words.new 0 roots }
    ensures roots { result ≡ roots_start main.now.seat.space }
{
    let regions = main.regions();
    let mut at = 0;
    while let Some(end) = regions.cells_end(at) {
        fill_region(main, words, at, end);
        at = end;
    }
    at
}

/// Puts all words of an image.
pub(crate) fn fill_words(main: &Main, words: &mut [u64])
    requires whole { Whole (heap_of main.now) }
    requires room { length words.old ≡ marks_start main.now.seat.space }
    ensures { AreWordsOf (heap_of main.now) words.new }
{
    let roots = fill_cells(main, words);
    copy_words(main, words, roots, main.count());
}
