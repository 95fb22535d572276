//! Whether the pairs of a weak table show the entries of a weak map.
ghost use Rattle.std.specs.Prelude.{◌↔◌, IsTrue};
ghost use Rattle.heap_model.specs.Images.{image_heap};
ghost use Rattle.heap_model.specs.Showing.{IsKnownKey};
ghost use Rattle.heap_model.specs.Wholeness.{HasRows};
ghost use Rattle.image_walk.specs.Words.{HasWords};
ghost use Rattle.image_walk.specs.Spans.{IsSpan};
ghost use Rattle.image_walk.specs.TablePairs.{table_pairs, pair_of};
ghost use Rattle.slow_check.specs.KeyPairs.{ShowsIfReached, ShowEntries, IsKnownPair, AreKnown};
ghost use Rattle.slow_check.specs.KeyPairs.{HasEntryOf, IsKnownNumber};

use crate::pairs::shows_once;
use heap_model::HeapImage;
use ideal_graph::{Entry, is_marked};
use image_walk::{KeyValue, Span, is_free, pair_at, sort_of};

/// Whether the pairs of a table show each entry whose key can be reached, in one pair each.
pub(crate) fn show_entries(
    image: &HeapImage,
    marks: &[bool],
    table: Span,
    entries: &[Entry],
) -> bool
    requires sized { HasWords (image_heap image.now) }
    requires rows { HasRows (image_heap image.now) }
    requires is { IsSpan (image_heap image.now) table }
    ensures { let heap = image_heap image.now in IsTrue result
        ↔ ShowEntries heap marks.now (table_pairs heap table) entries.now }
{
    for entry in entries {
        if !shows_if_reached(image, marks, table, *entry) {
            return false;
        }
    }
    true
}

/// Whether the pairs of a table show the entry in one pair, if its key can be reached.
fn shows_if_reached(image: &HeapImage, marks: &[bool], table: Span, entry: Entry) -> bool
    requires sized { HasWords (image_heap image.now) }
    requires rows { HasRows (image_heap image.now) }
    requires is { IsSpan (image_heap image.now) table }
    ensures { let heap = image_heap image.now in IsTrue result
        ↔ ShowsIfReached heap marks.now (table_pairs heap table) entry }
{
    if is_marked(marks, entry.key) {
        shows_once(image, table, entry)
    } else {
        true
    }
}

/// Whether the key of each pair of a table that holds something is that of an entry, or cannot be
/// reached.
pub(crate) fn are_known(image: &HeapImage, marks: &[bool], table: Span, entries: &[Entry]) -> bool
    requires sized { HasWords (image_heap image.now) }
    requires rows { HasRows (image_heap image.now) }
    requires is { IsSpan (image_heap image.now) table }
    ensures { let heap = image_heap image.now in IsTrue result
        ↔ AreKnown heap marks.now (table_pairs heap table) entries.now }
{
    for at in 0..(table.end - table.from) / 2 {
        if !is_known_pair(image, marks, pair_at(image, table, at), entries) {
            return false;
        }
    }
    true
}

/// Whether the key of a pair is that of an entry or cannot be reached, if the pair holds something.
fn is_known_pair(image: &HeapImage, marks: &[bool], pair: KeyValue, entries: &[Entry]) -> bool
    requires sized { HasWords (image_heap image.now) }
    requires rows { HasRows (image_heap image.now) }
    ensures { IsTrue result
        ↔ IsKnownPair (image_heap image.now) marks.now entries.now (pair_of pair) }
{
    if is_free(pair) {
        true
    } else {
        is_known(image, marks, pair, entries)
    }
}

/// Whether the key of a pair is that of an entry whose key can be reached, or cannot be reached.
fn is_known(image: &HeapImage, marks: &[bool], pair: KeyValue, entries: &[Entry]) -> bool
    requires sized { HasWords (image_heap image.now) }
    requires rows { HasRows (image_heap image.now) }
    ensures { IsTrue result
        ↔ IsKnownKey (image_heap image.now) marks.now entries.now (pair_of pair) }
{
    match sort_of(image, pair.key).number() {
        Some(number) => is_known_number(marks, number, entries),
        None => false,
    }
}

/// Whether an object cannot be reached, or is the key of one of the entries.
fn is_known_number(marks: &[bool], number: u32, entries: &[Entry]) -> bool
    ensures { IsTrue result ↔ IsKnownNumber marks.now entries.now number }
{
    if is_marked(marks, number) {
        has_entry(entries, number)
    } else {
        true
    }
}

/// Whether one of the entries has this key.
fn has_entry(entries: &[Entry], key: u32) -> bool
    ensures { IsTrue result ↔ HasEntryOf entries.now key }
{
    for entry in entries {
        if entry.key == key {
            return true;
        }
    }
    false
}
