//! The boxes of integers that slots refer to: which stands there, and how one is made.
ghost use Rattle.std.specs.Prelude.{◌≡◌, ℕ, ℤ, ◌+◌, ◌<◌, ◌≤◌, Some, OnErr, IfOk, IfErr};
ghost use Rattle.tagged_word.specs.Readings.{reference_in};
ghost use Rattle.page_space.specs.Extents.{layouts_start, marks_start};
ghost use Rattle.write_barrier.specs.Seats.{heap_words};
ghost use Rattle.heap_model.specs.Needs.{box_words, word_at};
ghost use Rattle.heap_model.specs.Wholeness.{Whole};
ghost use Rattle.write_barrier.specs.MutatorState.{heap_of, IsTied};
ghost use Rattle.write_barrier.specs.Recording.{Touches};
ghost use Rattle.write_barrier.specs.Storing.{IsMadeYoung, StoresOn};
ghost use Rattle.object_cells.specs.Contents as contents;
ghost use Rattle.object_cells.specs.Contents.{next_at, AllocatesBox, LacksRoom, IsBeforeLayouts};
ghost use Rattle.object_cells.specs.Contents.{HoldsSlotWord};
ghost use Rattle.object_cells.specs.CycleChanges.{MayFillSlot};
ghost use Rattle.object_cells.specs.Made.{PutsWords, content_need, content_touch, content_word, with_content};

use crate::content::{SlotContent, SlotWrite};
use crate::formats::make_box;
use heap_model::cells::BOX_WORDS;
use tagged_word::Word;
use write_barrier::{Main, NoRoom};

/// How many words of a box that takes which a slot comes to hold.
pub fn need_of(content: SlotContent) -> u32
    ensures { result ≡ content_need content }
{
    match content {
        SlotContent::Tagged(_) => 0,
        SlotContent::Raw(_) => 0,
        SlotContent::Boxed(_) => BOX_WORDS,
    }
}

/// The word that a slot of a store comes to hold; a box that it needs is made at an address.
pub fn boxed_word(main: &mut Main, content: SlotContent, at: u32) -> Word
    requires young { (v : ℤ) → content ≡ SlotContent.Boxed v → IsMadeYoung main.old at }
    requires within { (v : ℤ) → content ≡ SlotContent.Boxed v
        → at + 1 < layouts_start main.old.seat.space }
    ensures made { let words = heap_words main.old.seat in
        PutsWords main.old main.new (with_content words content at) }
    ensures touches { Touches main.old main.new (content_touch content at) }
    ensures stores { StoresOn main.old main.new }
    ensures cycle { main.new.cycle ≡ main.old.cycle }
    ensures word { result.0 ≡ content_word content at }
{
    match content {
        SlotContent::Tagged(word) => word,
        SlotContent::Raw(word) => Word(word),
        SlotContent::Boxed(v) => {
            make_box(main, at, v);
            Word::reference(at)
        }
    }
}

/// The box to which the word of a slot refers.
fn box_in(main: &Main, word: Word) -> Option<u32>
    requires { (at : ℕ) → reference_in word.0 ≡ Some at
        → at < marks_start main.now.seat.space }
    ensures { result ≡ contents.box_in (heap_of main.now) word.0 }
{
    if main.is_box(word) {
        word.address()
    } else {
        None
    }
}

/// How a slot comes to hold a box of an integer: the one to which its word refers, or one that is
/// made of words that are used from now on.
///
/// # Errors
/// There is no room for a box; nothing has changed.
#[inline(never)]
fn box_filling(main: &mut Main, word: Word, v: i64) -> Result<SlotWrite, NoRoom>
    requires tied { IsTied main.old }
    requires within { (at : ℕ) → reference_in word.0 ≡ Some at
        → at + box_words ≤ layouts_start main.old.seat.space }
    ensures filling { let box = contents.box_in (heap_of main.old) word.0 in
        IfOk result (λ filling.
        filling ≡ contents.filling_of box (next_at main.old) (SlotContent.Boxed v)) }
    ensures allocates { IfOk result (λ filling. AllocatesBox main.old main.new filling) }
    ensures in_cells { IfOk result (IsBeforeLayouts main.old.seat.space) }
    ensures refused { let box = contents.box_in (heap_of main.old) word.0 in
        IfErr result (λ full.
        LacksRoom main.old (contents.filling_of box (next_at main.old) (SlotContent.Boxed v)) full) }
    ensures unchanged { OnErr result (main.new ≡ main.old) }
{
    if let Some(at) = box_in(main, word) {
        return Ok(SlotWrite::OldBox { at, v });
    }
    let run = main.reserve(BOX_WORDS)?;
    Ok(SlotWrite::NewBox { at: run.at, v })
}

/// How the slot at an address comes to hold this. The words of a box that is to be made are used
/// from now on.
///
/// # Errors
/// There is no room for a box; nothing has changed.
#[inline(always)]
pub fn filling_of(main: &mut Main, at: u32, content: SlotContent) -> Result<SlotWrite, NoRoom>
    requires whole { Whole (heap_of main.old) }
    requires tied { IsTied main.old }
    requires within { at < marks_start main.old.seat.space }
    requires slot { HoldsSlotWord (heap_of main.old) (word_at (heap_of main.old) at) content }
    ensures filling { IfOk result (λ filling. filling ≡ contents.filling_at main.old at content) }
    ensures allocates { IfOk result (λ filling. AllocatesBox main.old main.new filling) }
    ensures in_cells { IfOk result (IsBeforeLayouts main.old.seat.space) }
    ensures refused { IfErr result (λ full.
        LacksRoom main.old (contents.filling_at main.old at content) full) }
    ensures unchanged { OnErr result (main.new ≡ main.old) }
{
    match content {
        SlotContent::Tagged(word) => Ok(SlotWrite::Tagged(word)),
        SlotContent::Raw(word) => Ok(SlotWrite::Raw(word)),
        SlotContent::Boxed(v) => {
            let word = main.word(at);
            box_filling(main, Word(word), v)
        }
    }
}

/// Fills the slot at an offset of a cell.
#[inline(always)]
pub fn fill(main: &mut Main, cell: u32, offset: u32, filling: SlotWrite)
    requires may { MayFillSlot main.old (cell + offset) filling }
    requires within { cell + offset < marks_start main.old.seat.space }
    requires room { IsBeforeLayouts main.old.seat.space filling }
    ensures { main.new ≡ contents.filled main.old (cell + offset) filling }
{
    match filling {
        SlotWrite::Tagged(word) => main.store(cell, offset, word),
        SlotWrite::Raw(word) => main.write_slot(cell, offset, word),
        SlotWrite::NewBox { at, v } => {
            make_box(main, at, v);
            main.store(cell, offset, Word::reference(at));
        }
        SlotWrite::OldBox { at, v } => main.write_slot(at, 1, v.cast_unsigned()),
    }
}
