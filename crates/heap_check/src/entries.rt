//! Flaws of weak maps: their table's slot and capacity, their pairs, and their count.
ghost use Rattle.std.specs.Prelude.{◌≡◌, ◌+◌, ◌-◌, ◌*◌, ◌<◌, ◌≤◌, Some, slice_get};
ghost use Rattle.heap_model.specs.Images.{image_heap};
ghost use Rattle.heap_model.specs.Heaps.{words_of_cell};
ghost use Rattle.heap_model.specs.Kinds.{IsWeakCell, HasWord, count_offset, Pair};
ghost use Rattle.heap_model.specs.Slots.{hole_word};
ghost use Rattle.heap_model.specs.Wholeness.{HasRows};
ghost use Rattle.image_walk.specs.Spans.{StandsIn, IsSpan};
ghost use Rattle.image_walk.specs.TablePairs.{table_pairs, filled_pairs};
ghost use Rattle.heap_check.specs.HeldPairs.{AreHeldPairs, IsHeldPair};
ghost use Rattle.image_walk.specs.Words.{HasWords};
ghost use Rattle.heap_check.specs.Cells.{BreaksWeak, BreaksPair, IsNextPower};
ghost use Rattle.heap_check.specs.Firsts.{IsVerdict};
ghost use Rattle.heap_check.specs.Marks.{MarksStarts};
ghost use Rattle.heap_check.specs.SpanFlaws.{BreaksPairs, BreaksCount, BreaksWord, HasBeside};

use crate::earlier::earlier;
use crate::finding::referent;
use crate::flaw::Flaw;
use crate::probing::{entries_in, is_probed};
use crate::stores::slot_flaw;
use cell_layout::Cell;
use heap_model::HeapImage;
use heap_model::cells::COUNT;
use image_walk::{KeyValue, Span, is_hole, is_power_of_two, pair_at, slots_beside, word_of};
use tagged_word::cell::{LENGTH, STORE_HEAD, STORE_SLOT};
use tagged_word::{Kind, Word, odd};

/// The first flaw of a weak map.
pub(crate) fn flaw_of_weak(image: &HeapImage, starts: &[bool], cell: Cell) -> Option<Flaw>
    requires sized { HasWords (image_heap image.now) }
    requires rows { HasRows (image_heap image.now) }
    requires marks { MarksStarts (image_heap image.now) starts.now }
    requires stands { StandsIn (image_heap image.now) cell }
    requires weak { cell.layout.kind ≡ Kind.Weak }
    requires ends { cell.at + cell.size ≤ u32.MAX }
    ensures { let heap = image_heap image.now in IsVerdict (IsWeakCell heap (words_of_cell heap cell))
        (BreaksWeak heap cell (words_of_cell heap cell)) result }
{
    let word = word_of(image, cell, STORE_SLOT);
    match slots_beside(image, word, referent(image, starts, word), Kind::Table) {
        None => Some(slot_flaw(cell.at + STORE_SLOT, word)),
        Some(table) => flaw_of_table(image, starts, cell, table),
    }
}

/// The first flaw of the table beside a weak map.
fn flaw_of_table(image: &HeapImage, starts: &[bool], cell: Cell, table: Span) -> Option<Flaw>
    requires sized { HasWords (image_heap image.now) }
    requires rows { HasRows (image_heap image.now) }
    requires marks { MarksStarts (image_heap image.now) starts.now }
    requires stands { StandsIn (image_heap image.now) cell }
    requires weak { cell.layout.kind ≡ Kind.Weak }
    requires ends { cell.at + cell.size ≤ u32.MAX }
    requires beside { HasBeside (image_heap image.now) cell Kind.Table table }
    ensures { let heap = image_heap image.now in IsVerdict (IsWeakCell heap (words_of_cell heap cell))
        (BreaksWeak heap cell (words_of_cell heap cell)) result }
{
    let capacity = (table.end - table.from) / 2;
    if table.from != 0 && !is_power_of_two(capacity) {
        return Some(Flaw {
            at: table.from - STORE_HEAD + LENGTH,
            found: capacity as u64,
            wanted: next_power(capacity),
        });
    }
    earlier(
        flaw_of_pairs(image, starts, table),
        flaw_of_count(image, cell, table),
    )
}

/// The next greater power of two.
fn next_power(n: u32) -> u64
    ensures { IsNextPower n result }
{
    for power in 0..32u32 {
        if 1u64 << power > n as u64 {
            return 1u64 << power;
        }
    }
    1u64 << 32
}

/// The flaw of the count of a weak map.
fn flaw_of_count(image: &HeapImage, cell: Cell, table: Span) -> Option<Flaw>
    requires stands { StandsIn (image_heap image.now) cell }
    requires weak { cell.layout.kind ≡ Kind.Weak }
    requires ends { cell.at + cell.size ≤ u32.MAX }
    requires is { IsSpan (image_heap image.now) table }
    ensures { let heap = image_heap image.now in
        IsVerdict (HasWord (words_of_cell heap cell) count_offset (filled_pairs (table_pairs heap table)))
        (BreaksCount heap cell table) result }
{
    let found = word_of(image, cell, COUNT);
    let wanted = entries_in(image, table) as u64;
    if found == wanted {
        return None;
    }
    Some(Flaw {
        at: cell.at + COUNT,
        found,
        wanted,
    })
}

/// The first flaw of the pairs of a table.
fn flaw_of_pairs(image: &HeapImage, starts: &[bool], table: Span) -> Option<Flaw>
    requires sized { HasWords (image_heap image.now) }
    requires rows { HasRows (image_heap image.now) }
    requires marks { MarksStarts (image_heap image.now) starts.now }
    requires is { IsSpan (image_heap image.now) table }
    ensures { let heap = image_heap image.now in IsVerdict (AreHeldPairs heap (table_pairs heap table))
        (BreaksPairs heap table) result }
{
    for place in 0..(table.end - table.from) / 2 {
        if let Some(flaw) = flaw_of_pair(image, starts, table, place) {
            return Some(flaw);
        }
    }
    None
}

/// The first flaw of the pair at a place of a table.
fn flaw_of_pair(image: &HeapImage, starts: &[bool], table: Span, place: u32) -> Option<Flaw>
    requires sized { HasWords (image_heap image.now) }
    requires rows { HasRows (image_heap image.now) }
    requires marks { MarksStarts (image_heap image.now) starts.now }
    requires is { IsSpan (image_heap image.now) table }
    requires there { 2 * place + 1 < table.end - table.from }
    ensures { let heap = image_heap image.now in (pair : Pair)
        → slice_get (table_pairs heap table) place ≡ Some pair
        → IsVerdict (IsHeldPair heap (table_pairs heap table) place pair)
        (BreaksPair heap table.from (table_pairs heap table) place pair) result }
{
    let pair = pair_at(image, table, place);
    let at = table.from + 2 * place;
    if is_hole(pair.key) {
        return flaw_of_none(at + 1, pair.value);
    }
    let Some(number) = referent(image, starts, pair.key).number() else {
        return Some(slot_flaw(at, pair.key));
    };
    if !is_probed(image, table, number, place) {
        return Some(Flaw {
            at,
            found: pair.key,
            wanted: Word::odd(odd::HOLE).0,
        });
    }
    if referent(image, starts, pair.value).is_value() {
        return None;
    }
    Some(slot_flaw(at + 1, pair.value))
}

/// The flaw of a value's slot beside a hole.
fn flaw_of_none(at: u32, found: u64) -> Option<Flaw>
    ensures { IsVerdict (found ≡ hole_word)
        (BreaksWord at found (λ word. word ≡ hole_word) (λ word. hole_word)) result }
{
    if is_hole(found) {
        return None;
    }
    Some(Flaw {
        at,
        found,
        wanted: Word::odd(odd::HOLE).0,
    })
}
