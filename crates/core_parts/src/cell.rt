//! The cell at an address of bare words.
ghost use Rattle.std.specs.Prelude.{◌≡◌};
ghost use Rattle.tagged_word.specs.Readings.{is_within, shape_layout, length_at, header_at, laid_cell, read_cell};

use tagged_word::cell::LENGTH;
use tagged_word::{Header, LayoutWord, Reading, Word, shape};

/// What words read as at an address, with one layout word for each shape; none where no cell stands
/// there that ends at the bound or before. Any words will do, and any layouts.
pub fn read_cell(words: &[u64], layouts: &[u64], at: u32, bound: u32) -> Option<Reading>
    ensures { result ≡ read_cell words.now layouts.now at bound }
{
    let header = header_at(words, at)?;
    let layout = layout_of(layouts, header.shape)?;
    laid_cell(words, at, bound, header, layout)
}

/// The header at an address.
fn header_at(words: &[u64], at: u32) -> Option<Header>
    ensures { result ≡ header_at words.now at }
{
    Header::parse(Word(*words.get(at as usize)?))
}

/// The cell of a header and a layout.
fn laid_cell(
    words: &[u64],
    at: u32,
    bound: u32,
    header: Header,
    layout: LayoutWord,
) -> Option<Reading>
    ensures { result ≡ laid_cell words.now at bound header layout }
{
    let length = length_of(words, at, layout)?;
    let size = layout.size(length)?;
    if is_within(words, at, bound, size) {
        Some(Reading {
            header,
            layout,
            length,
            size,
        })
    } else {
        None
    }
}

/// Whether so many words from an address end at the bound or before, and are all there.
fn is_within(words: &[u64], at: u32, bound: u32, size: u32) -> bool
    ensures { result ≡ is_within words.now at bound size }
{
    let end = at as u64 + size as u64;
    end <= bound as u64 && end <= words.len() as u64
}

/// The layout of a shape by its layout word; none for a shape that there is not.
pub fn layout_of(layouts: &[u64], number: u32) -> Option<LayoutWord>
    ensures { result ≡ shape_layout layouts.now number }
{
    if number < shape::COUNT {
        LayoutWord::parse(*layouts.get(number as usize)?)
    } else {
        None
    }
}

/// The length of a cell with this layout at an address; none behind the last word.
fn length_of(words: &[u64], at: u32, layout: LayoutWord) -> Option<u64>
    ensures { result ≡ length_at words.now at layout }
{
    if layout.kind.has_length() {
        words.get((at as u64 + LENGTH as u64) as usize).copied()
    } else {
        Some(0)
    }
}
