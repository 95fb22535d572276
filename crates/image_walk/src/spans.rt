//! Words of a cell, and spans of words.
ghost use Rattle.std.specs.Prelude.{◌≡◌, ◌+◌, ◌≤◌, ◌<◌, drop};
ghost use Rattle.heap_model.specs.Images.{image_heap};
ghost use Rattle.heap_model.specs.Heaps.{words_of_cell};
ghost use Rattle.heap_model.specs.Kinds.{HasWord};
ghost use Rattle.image_walk.specs.Words.{HasWords};
ghost use Rattle.image_walk.specs.Spans.{StandsIn, span_words, IsSpan};

use cell_layout::Cell;
use heap_model::HeapImage;

/// The words from an address to another.
#[derive(Clone, Copy)]
pub struct Span {
    pub from: u32,
    pub end: u32,
}

/// The word of a cell at an offset.
pub fn word_of(image: &HeapImage, cell: Cell, offset: u32) -> u64
    requires stands { StandsIn (image_heap image.now) cell }
    requires within { offset < cell.size }
    ensures { HasWord (words_of_cell (image_heap image.now) cell) offset result }
{
    image.words.as_slice()[cell.at as usize + offset as usize]
}

/// The slots after the head of a store, of a weak table or of a plain object, which has so many words.
pub fn behind_head(image: &HeapImage, cell: Cell, head: u32) -> Span
    requires sized { HasWords (image_heap image.now) }
    requires stands { StandsIn (image_heap image.now) cell }
    requires long { head ≤ cell.size }
    ensures slots { span_words (image_heap image.now) result
        ≡ drop head (words_of_cell (image_heap image.now) cell) }
    ensures is { IsSpan (image_heap image.now) result }
    ensures from { result.from ≡ cell.at + head }
    ensures end { result.end ≡ cell.at + cell.size }
{
    // No address of a heap is past 32 bits.
    image.regions.sizes_fit();
    Span {
        from: cell.at + head,
        end: cell.at + cell.size,
    }
}
