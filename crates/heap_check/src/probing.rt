//! How many pairs of a weak table hold something, and where probing comes to.
ghost use Rattle.std.specs.Prelude.{◌≡◌, ◌↔◌, IsTrue};
ghost use Rattle.heap_model.specs.Images.{image_heap};
ghost use Rattle.heap_model.specs.Kinds.{IsProbed};
ghost use Rattle.image_walk.specs.Spans.{IsSpan};
ghost use Rattle.image_walk.specs.TablePairs.{table_pairs, filled_pairs};

use heap_model::HeapImage;
use image_walk::{Span, is_free, pair_at};

/// How many pairs of a table hold something.
pub(crate) fn entries_in(image: &HeapImage, table: Span) -> u32
    requires { IsSpan (image_heap image.now) table }
    ensures { result ≡ filled_pairs (table_pairs (image_heap image.now) table) }
{
    let mut entries = 0;
    for at in 0..(table.end - table.from) / 2 {
        if !is_free(pair_at(image, table, at)) {
            entries += 1;
        }
    }
    entries
}

/// Whether probing a table for a number comes to a place.
pub(crate) fn is_probed(image: &HeapImage, table: Span, number: u32, at: u32) -> bool
    requires { IsSpan (image_heap image.now) table }
    ensures { IsTrue result
        ↔ IsProbed (table_pairs (image_heap image.now) table) number at }
{
    let capacity = (table.end - table.from) / 2;
    for steps in 0..capacity {
        let place = ((number as u64 + steps as u64) % capacity as u64) as u32;
        if place == at {
            return true;
        }
        if is_free(pair_at(image, table, place)) {
            return false;
        }
    }
    false
}
