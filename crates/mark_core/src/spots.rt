//! The one word that an event touches.
ghost use Rattle.std.specs.Prelude.{◌≡◌, ◌+◌, ◌≤◌, slice_index, slice_set};
ghost use Rattle.std.specs.Option.{option_map};
ghost use Rattle.core_parts.specs.Boards.{given_word};
ghost use Rattle.mark_world.specs.Steps.{actor, main_spot, helper_spot, layout_spot, shaded, settled, becomes};
ghost use Rattle.mark_world.specs.AfterEvents.{word_at, with_word};
ghost use Rattle.mark_core.specs.Locations.{FitsSpot};

use crate::cells::word_at;
use core_parts::Items;
use mark_world::{Actor, Event, HelperView, Snap, Spot, World};
use tagged_word::cell::LENGTH;
use tagged_word::{Header, Word};

/// Whose step an event is.
pub(crate) fn actor(event: Event) -> Actor
    ensures { result ≡ actor event }
{
    match event {
        Event::Lend {} => Actor::Lends,
        Event::Return { helper } => Actor::Returns(helper),
        Event::LoadHeader { helper, cell: _ } => Actor::Helper(helper),
        Event::LoadLayout { helper } => Actor::Helper(helper),
        Event::LoadLength { helper } => Actor::Helper(helper),
        Event::LoadSlot { helper, offset: _ } => Actor::Helper(helper),
        Event::Settle { helper } => Actor::Helper(helper),
        Event::ShadeHelper { helper, at: _ } => Actor::Helper(helper),
        Event::Give {
            helper,
            place: _,
            at: _,
        } => Actor::Helper(helper),
        Event::Take { helper, place: _ } => Actor::Helper(helper),
        _ => Actor::Mutator,
    }
}

/// The word that a step of the mutator touches.
pub(crate) fn main_spot(event: Event) -> Option<Spot>
    ensures { result ≡ main_spot event }
{
    match event {
        Event::StoreSlot { at, word: _ } => Some(Spot::Heap(at as u64)),
        Event::StoreOwned { at, word: _ } => Some(Spot::Heap(at as u64)),
        Event::StoreHeader { at, word: _ } => Some(Spot::Heap(at as u64)),
        Event::AddLayout { shape, word: _ } => Some(Spot::Layout(shape)),
        Event::ShadeMain { at } => Some(Spot::Colour(at)),
        Event::Blacken { at } => Some(Spot::Colour(at)),
        Event::NewBlack { at } => Some(Spot::Colour(at)),
        Event::GiveMain { place, at: _ } => Some(Spot::Board(place)),
        Event::TakeMain { place } => Some(Spot::Board(place)),
        _ => None,
    }
}

/// The layout word of the shape of the header that was read.
fn layout_spot(snap: &Snap) -> Option<Spot>
    ensures { result ≡ layout_spot snap.now }
{
    let header = Header::parse(Word(snap.header))?;
    Some(Spot::Layout(header.shape))
}

/// The word that a step of a helper touches.
pub(crate) fn helper_spot(view: &HelperView, event: Event) -> Option<Spot>
    ensures { result ≡ helper_spot view.now event }
{
    match event {
        Event::LoadHeader { helper: _, cell } => Some(Spot::Heap(cell as u64)),
        Event::LoadLayout { helper: _ } => layout_spot(view.snap.as_ref()?),
        Event::LoadLength { helper: _ } => snap_spot(&view.snap, LENGTH as u64),
        Event::LoadSlot { helper: _, offset } => snap_spot(&view.snap, offset as u64),
        Event::Settle { helper: _ } => Some(Spot::Colour(view.snap.as_ref()?.cell)),
        Event::ShadeHelper { helper: _, at } => Some(Spot::Colour(at)),
        Event::Give {
            helper: _,
            place,
            at: _,
        } => Some(Spot::Board(place)),
        Event::Take { helper: _, place } => Some(Spot::Board(place)),
        _ => None,
    }
}

/// The word at an offset of the cell of a snap.
fn snap_spot(snap: &Option<Snap>, offset: u64) -> Option<Spot>
    requires { offset ≤ 4294967295 }
    ensures { result ≡ option_map (λ snap. Spot.Heap (snap.cell + offset)) snap.now }
{
    match snap {
        Some(snap) => Some(Spot::Heap(snap.cell as u64 + offset)),
        None => None,
    }
}

/// The word that an event touches, afterwards, by the word found there.
pub(crate) fn becomes(event: Event, found: u64) -> u64
    ensures { result ≡ becomes event found }
{
    match event {
        Event::StoreSlot { at: _, word } => word,
        Event::StoreOwned { at: _, word } => word,
        Event::StoreHeader { at: _, word } => word,
        Event::AddLayout { shape: _, word } => word,
        Event::ShadeMain { at: _ } => shaded(found),
        Event::Blacken { at: _ } => 2,
        Event::NewBlack { at: _ } => 2,
        Event::Settle { helper: _ } => settled(found),
        Event::ShadeHelper { helper: _, at: _ } => shaded(found),
        Event::Give {
            helper: _,
            place: _,
            at,
        } => given(found, at),
        Event::Take {
            helper: _,
            place: _,
        } => 0,
        Event::GiveMain { place: _, at } => given(found, at),
        Event::TakeMain { place: _ } => 0,
        _ => found,
    }
}

/// A word of the board once a cell was given to it.
fn given(found: u64, at: u32) -> u64
    ensures { result ≡ given_word found at }
{
    if found == 0 {
        Word::reference(at).0
    } else {
        found
    }
}

/// A colour once a cell was shaded.
fn shaded(found: u64) -> u64
    ensures { result ≡ shaded found }
{
    if found == 0 { 1 } else { found }
}

/// A colour once a snap of the cell was settled.
fn settled(found: u64) -> u64
    ensures { result ≡ settled found }
{
    if found == 1 { 2 } else { found }
}

/// The word at a spot; 0 where there is none.
pub(crate) fn word_of(world: &World, spot: Option<Spot>) -> u64
    ensures word { result ≡ word_at world.now spot }
    ensures fits { FitsSpot spot result }
{
    match spot {
        None => 0,
        Some(Spot::Heap(at)) => word_at(world.words.as_slice(), at),
        Some(Spot::Layout(shape)) => word_at(world.layouts.as_slice(), shape as u64),
        Some(Spot::Colour(at)) => colour_at(world.colours.as_slice(), at) as u64,
        Some(Spot::Board(place)) => word_at(world.board.as_slice(), place as u64),
    }
}

/// The colour of a cell; white behind the last one.
pub(crate) fn colour_at(colours: &[u8], at: u32) -> u8
    ensures { result ≡ slice_index colours.now at }
{
    colours.get(at as usize).copied().unwrap_or(0)
}

/// Puts a word at a spot; past the end of its list nothing is put.
pub(crate) fn put(world: &mut World, spot: Option<Spot>, word: u64)
    requires { FitsSpot spot word }
    ensures { world.exit.now ≡ with_word world.entry.now spot word }
{
    match spot {
        None => {}
        Some(Spot::Heap(at)) => set_word(&mut world.words, at, word),
        Some(Spot::Layout(shape)) => set_word(&mut world.layouts, shape as u64, word),
        Some(Spot::Colour(at)) => set_colour(&mut world.colours, at, word as u8),
        Some(Spot::Board(place)) => set_word(&mut world.board, place as u64, word),
    }
}

/// Puts a word at a place of a list, if there is one.
fn set_word(list: &mut Items<u64>, at: u64, word: u64)
    ensures { list.new ≡ slice_set list.old at word }
{
    if at < list.count() as u64 {
        list.set(at as usize, word);
    }
}

/// Puts a colour at a place of a list, if there is one.
fn set_colour(list: &mut Items<u8>, at: u32, colour: u8)
    ensures { list.new ≡ slice_set list.old at colour }
{
    if (at as usize) < list.count() {
        list.set(at as usize, colour);
    }
}
