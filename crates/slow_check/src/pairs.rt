//! The pairs of a weak table by their keys.
ghost use Rattle.std.specs.Prelude.{◌↔◌, IsTrue, MatchOption};
ghost use Rattle.heap_model.specs.Images.{image_heap};
ghost use Rattle.heap_model.specs.Showing.{ShowsOnce};
ghost use Rattle.heap_model.specs.Wholeness.{HasRows};
ghost use Rattle.image_walk.specs.Words.{HasWords};
ghost use Rattle.image_walk.specs.Spans.{IsSpan};
ghost use Rattle.image_walk.specs.TablePairs.{table_pairs};
ghost use Rattle.slow_check.specs.KeyPairs.{HasNoPairFrom, IsFirstPair};

use crate::values::{refers_to, shows_value};
use heap_model::HeapImage;
use ideal_graph::Entry;
use image_walk::{Span, pair_at};

/// Whether one pair of a table shows the entry, and no other has its key.
pub(crate) fn shows_once(image: &HeapImage, table: Span, entry: Entry) -> bool
    requires sized { HasWords (image_heap image.now) }
    requires rows { HasRows (image_heap image.now) }
    requires is { IsSpan (image_heap image.now) table }
    ensures { let heap = image_heap image.now in IsTrue result
        ↔ ShowsOnce heap (table_pairs heap table) entry }
{
    let Some(at) = pair_from(image, table, entry.key, 0) else {
        return false;
    };
    if !shows_value(image, pair_at(image, table, at).value, entry.value) {
        return false;
    }
    match pair_from(image, table, entry.key, at + 1) {
        Some(_) => false,
        None => true,
    }
}

/// The place of the first pair of a table, from a place on, whose key is the object of this number.
fn pair_from(image: &HeapImage, table: Span, key: u32, from: u32) -> Option<u32>
    requires sized { HasWords (image_heap image.now) }
    requires rows { HasRows (image_heap image.now) }
    requires is { IsSpan (image_heap image.now) table }
    ensures { let heap = image_heap image.now in MatchOption result
        (HasNoPairFrom heap (table_pairs heap table) key from)
        (λ at. IsFirstPair heap (table_pairs heap table) key from at) }
{
    for at in from..(table.end - table.from) / 2 {
        if refers_to(image, pair_at(image, table, at).key, key) {
            return Some(at);
        }
    }
    None
}
