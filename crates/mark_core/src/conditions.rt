//! Where a step is possible, by what its seat knows.
ghost use Rattle.std.specs.Prelude.{◌≡◌, ◌↔◌, ◌⊎◌, IsTrue, IsSomeAnd, slice_index, Some};
ghost use Rattle.std.specs.Prelude.{None};
ghost use Rattle.tagged_word.specs.Layouts.{IsLayout};
ghost use Rattle.mark_world.specs.declared.snap.Snap.{Snap};
ghost use Rattle.std.specs.Prelude.{◌+◌};
ghost use Rattle.mark_world.specs.Pages.{OfTarget, is_free, IsOutside};
ghost use Rattle.mark_world.specs.Safety.{IsSafe, plain_slots};
ghost use Rattle.mark_world.specs.Conditions.{MayStoreSlot, MayStoreOwned, AreSure, AreSureAfter};
ghost use Rattle.mark_world.specs.Conditions.{MayStoreHeader, MayAddLayout, MayBeNew, MayGive};
ghost use Rattle.mark_world.specs.Conditions.{MayMain, MayHelper, AwaitsLayout, AwaitsLength, MayBegin};
ghost use Rattle.mark_world.specs.Naming.{named, read_offsets, IsToRead, IsReadOut};
ghost use Rattle.std.specs.List.{Contains};
ghost use Rattle.mark_core.specs.HeaderChange.{IsSureSlot};

use crate::cells::{is_free, is_no_head, is_outside, leaves_all_alone, word_at};
use crate::lists::has;
use crate::naming::{is_read_out, is_shape, is_to_read, is_unread};
use crate::safety::{PLAIN_MOST, is_safe, is_slot_word, laid_in};
use mark_world::{Event, HelperView, Laid, MainView, Snap, World, target};
use page_space::BOARD_WORDS;
use tagged_word::{Header, Kind, LayoutWord, Word};

/// Whether a word has no target, or one that a list has.
fn has_target_in(old: u32, word: u64, list: &[u32]) -> bool
    ensures { IsTrue result ↔ OfTarget old word (λ to. Contains list.now to) }
{
    match target(Word(word), old) {
        Some(to) => has(list, to),
        None => true,
    }
}

/// Whether a word may go into a slot.
fn may_store_slot(world: &World, at: u32, word: u64) -> bool
    ensures { let w = world.now in IsTrue result
        ↔ MayStoreSlot w.old w.words w.layouts w.main at word }
{
    (at as usize) < world.words.count()
        && is_no_head(world, at)
        && is_slot_word(word)
        && has_target_in(world.old, word, world.main.born.as_slice())
}

/// Whether a word may go where no helper visits.
fn may_store_owned(world: &World, at: u32) -> bool
    ensures { let w = world.now in IsTrue result
        ↔ MayStoreOwned w.old w.words w.layouts w.main at }
{
    if (at as usize) >= world.words.count() {
        return false;
    }
    if world.old <= at {
        return true;
    }
    leaves_all_alone(world, at)
}

/// Whether the mutator is sure of the target in a slot, if there is one.
fn is_sure_at(world: &World, at: u32, offset: u32) -> bool
    ensures { let w = world.now in IsTrue result ↔ OfTarget w.old
        (slice_index w.words (at + offset)) (λ to. Contains w.main.sure to) }
{
    let word = word_at(world.words.as_slice(), at as u64 + offset as u64);
    has_target_in(world.old, word, world.main.sure.as_slice())
}

/// Whether a slot was tagged before, or the mutator is sure of its target, if there is one.
fn is_sure_slot(world: &World, at: u32, old: Laid, offset: u32) -> bool
    ensures { let w = world.now in IsTrue result ↔ IsSureSlot w at (plain_slots old) offset }
{
    if old.layout.is_tagged(0, offset) {
        return true;
    }
    is_sure_at(world, at, offset)
}

/// Whether the mutator is sure of each target in a slot that is tagged after a change of a header and
/// not before.
fn are_sure(world: &World, at: u32, old: Laid, new: Laid) -> bool
    requires is { IsLayout new.layout }
    requires plain { new.layout.kind ≡ Kind.Plain }
    ensures { let w = world.now in IsTrue result
        ↔ AreSure w.old w.words w.main at (plain_slots old) (plain_slots new) }
{
    for offset in 0..PLAIN_MOST {
        if new.layout.is_tagged(0, offset) && !is_sure_slot(world, at, old, offset) {
            return false;
        }
    }
    true
}

/// The same of two headers of plain cells.
fn are_sure_after(world: &World, at: u32, word: u64) -> bool
    requires { IsSafe world.now.layouts (slice_index world.now.words at) word }
    ensures { let w = world.now in IsTrue result
        ↔ AreSureAfter w.old w.words w.layouts w.main at word }
{
    let found = word_at(world.words.as_slice(), at as u64);
    let Some(old) = laid_in(world.layouts.as_slice(), found) else {
        unreachable!();
    };
    let Some(new) = laid_in(world.layouts.as_slice(), word) else {
        unreachable!();
    };
    are_sure(world, at, old, new)
}

/// Whether a header stands where one may change.
fn may_change_at(world: &World, at: u32) -> bool
    ensures { let w = world.now in IsTrue result
        ↔ (IsTrue (is_free w.main at) ⊎ IsOutside w.old w.words w.layouts w.main at) }
{
    if is_free(&world.main, at) {
        return true;
    }
    is_outside(world, at)
}

/// Whether a header may change.
fn may_store_header(world: &World, at: u32, word: u64) -> bool
    ensures { let w = world.now in IsTrue result
        ↔ MayStoreHeader w.old w.words w.layouts w.main at word }
{
    let found = word_at(world.words.as_slice(), at as u64);
    if !may_change_at(world, at) {
        return false;
    }
    if !is_safe(world.layouts.as_slice(), found, word) {
        return false;
    }
    if !is_free(&world.main, at) {
        return true;
    }
    are_sure_after(world, at, word)
}

/// Whether a layout word may go to a shape.
fn may_add_layout(layouts: &[u64], shape: u32, word: u64) -> bool
    ensures { IsTrue result ↔ MayAddLayout layouts.now shape word }
{
    let Some(found) = layouts.get(shape as usize) else {
        return false;
    };
    *found == 0 && LayoutWord::parse(word).is_some()
}

/// Whether a cell may be new.
fn may_be_new(world: &World, at: u32) -> bool
    ensures { let w = world.now in IsTrue result
        ↔ MayBeNew w.old w.words w.layouts w.main at }
{
    at < world.old && is_outside(world, at)
}

/// Whether a cell may go to a word of the board.
fn may_give(list: &[u32], place: u32, at: u32) -> bool
    ensures { IsTrue result ↔ MayGive list.now place at }
{
    place < BOARD_WORDS && has(list, at)
}

/// Whether a step of the mutator may be made.
pub(crate) fn may_main(world: &World, event: Event) -> bool
    ensures { let w = world.now in IsTrue result
        ↔ MayMain w.old w.words w.layouts w.main event }
{
    match event {
        Event::Look {} => true,
        Event::StoreSlot { at, word } => may_store_slot(world, at, word),
        Event::StoreOwned { at, word: _ } => may_store_owned(world, at),
        Event::StoreHeader { at, word } => may_store_header(world, at, word),
        Event::AddLayout { shape, word } => {
            may_add_layout(world.layouts.as_slice(), shape, word)
        }
        Event::ShadeMain { at } => has(world.main.born.as_slice(), at),
        Event::Blacken { at } => has(world.main.born.as_slice(), at),
        Event::NewBlack { at } => may_be_new(world, at),
        Event::GiveMain { place, at } => may_give(world.main.grey.as_slice(), place, at),
        Event::TakeMain { place } => place < BOARD_WORDS,
        _ => false,
    }
}

/// Whether a snap has no layout word, and its header a shape that there may be.
fn awaits_layout(snap: &Snap) -> bool
    ensures { IsTrue result ↔ AwaitsLayout snap.now }
{
    if snap.layout.is_some() {
        return false;
    }
    match Header::parse(Word(snap.header)) {
        Some(header) => is_shape(header),
        None => false,
    }
}

/// Whether the length is what a snap still lacks.
fn awaits_length(snap: &Snap) -> bool
    ensures { IsTrue result ↔ AwaitsLength snap.now }
{
    snap.layout.is_some() && snap.length.is_none() && is_unread(snap)
}

/// Whether a helper may begin a snap.
fn may_begin(view: &HelperView) -> bool
    ensures { IsTrue result ↔ MayBegin view.now }
{
    view.snap.is_none() && view.visit.as_slice().is_empty()
}

/// Whether a helper has a snap that awaits its layout.
fn may_load_layout(snap: &Option<Snap>) -> bool
    ensures { IsTrue result ↔ IsSomeAnd snap.now AwaitsLayout }
{
    match snap {
        Some(snap) => awaits_layout(snap),
        None => false,
    }
}

/// Whether a helper has a snap that awaits its length.
fn may_load_length(snap: &Option<Snap>) -> bool
    ensures { IsTrue result ↔ IsSomeAnd snap.now AwaitsLength }
{
    match snap {
        Some(snap) => awaits_length(snap),
        None => false,
    }
}

/// Whether a helper has a snap that the slot is to be read for.
fn may_load_slot(snap: &Option<Snap>, offset: u32) -> bool
    ensures { IsTrue result ↔ IsSomeAnd snap.now
        (λ snap. IsToRead (named snap) (read_offsets snap) offset) }
{
    match snap {
        Some(snap) => is_to_read(snap, offset),
        None => false,
    }
}

/// Whether a helper has a snap of which nothing is left to read.
fn may_settle(snap: &Option<Snap>) -> bool
    ensures { IsTrue result ↔ IsSomeAnd snap.now
        (λ snap. IsReadOut (named snap) (read_offsets snap)) }
{
    match snap {
        Some(snap) => is_read_out(snap),
        None => false,
    }
}

/// Whether a step of a helper may be made, as far as its own view tells.
pub(crate) fn may_helper(view: &HelperView, event: Event) -> bool
    ensures { IsTrue result ↔ MayHelper view.now event }
{
    match event {
        Event::LoadHeader { helper: _, cell: _ } => may_begin(view),
        Event::LoadLayout { helper: _ } => may_load_layout(&view.snap),
        Event::LoadLength { helper: _ } => may_load_length(&view.snap),
        Event::LoadSlot { helper: _, offset } => may_load_slot(&view.snap, offset),
        Event::Settle { helper: _ } => may_settle(&view.snap),
        Event::ShadeHelper { helper: _, at } => has(view.visit.as_slice(), at),
        Event::Give {
            helper: _,
            place,
            at,
        } => may_give(view.grey.as_slice(), place, at),
        Event::Take { helper: _, place } => place < BOARD_WORDS,
        _ => false,
    }
}
