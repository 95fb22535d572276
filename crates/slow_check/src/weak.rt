//! Whether the cell of a weak map shows its entries.
ghost use Rattle.std.specs.Prelude.{◌≡◌, ◌↔◌, IsTrue};
ghost use Rattle.heap_model.specs.Images.{image_heap};
ghost use Rattle.heap_model.specs.Heaps.{words_of_cell};
ghost use Rattle.heap_model.specs.Showing.{ShowsWeak};
ghost use Rattle.heap_model.specs.Wholeness.{HasRows};
ghost use Rattle.image_walk.specs.Words.{HasWords};
ghost use Rattle.image_walk.specs.Spans.{StandsIn, IsSpan};
ghost use Rattle.image_walk.specs.TablePairs.{table_pairs};
ghost use Rattle.slow_check.specs.KeyPairs.{ShowPairs};

use crate::entries::{are_known, show_entries};
use crate::tables::table_beside;
use cell_layout::Cell;
use heap_model::HeapImage;
use ideal_graph::Entry;
use image_walk::{Span, word_of};
use tagged_word::Kind;
use tagged_word::cell::STORE_SLOT;

/// Whether the cell is that of a weak map with these entries, as far as their keys can be reached.
pub(crate) fn shows_weak(image: &HeapImage, marks: &[bool], cell: Cell, entries: &[Entry]) -> bool
    requires sized { HasWords (image_heap image.now) }
    requires rows { HasRows (image_heap image.now) }
    requires stands { StandsIn (image_heap image.now) cell }
    ensures { let heap = image_heap image.now in IsTrue result
        ↔ ShowsWeak heap marks.now cell (words_of_cell heap cell) entries.now }
{
    match cell.layout.kind {
        Kind::Weak => shows_weak_cell(image, marks, cell, entries),
        _ => false,
    }
}

/// Whether the cell of a weak map is that of one with these entries, as far as their keys can be
/// reached.
fn shows_weak_cell(image: &HeapImage, marks: &[bool], cell: Cell, entries: &[Entry]) -> bool
    requires sized { HasWords (image_heap image.now) }
    requires rows { HasRows (image_heap image.now) }
    requires stands { StandsIn (image_heap image.now) cell }
    requires weak { cell.layout.kind ≡ Kind.Weak }
    ensures { let heap = image_heap image.now in IsTrue result
        ↔ ShowsWeak heap marks.now cell (words_of_cell heap cell) entries.now }
{
    let store = word_of(image, cell, STORE_SLOT);
    match table_beside(image, store) {
        Some(table) => show_pairs(image, marks, table, entries),
        None => false,
    }
}

/// Whether the pairs of a table show the entries, and have no other key that can be reached.
fn show_pairs(image: &HeapImage, marks: &[bool], table: Span, entries: &[Entry]) -> bool
    requires sized { HasWords (image_heap image.now) }
    requires rows { HasRows (image_heap image.now) }
    requires is { IsSpan (image_heap image.now) table }
    ensures { let heap = image_heap image.now in IsTrue result
        ↔ ShowPairs heap marks.now (table_pairs heap table) entries.now }
{
    if show_entries(image, marks, table, entries) {
        are_known(image, marks, table, entries)
    } else {
        false
    }
}
