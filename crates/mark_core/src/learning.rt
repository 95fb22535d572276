//! What the mutator knows after a step of its own, by the word that it found; and what both kinds of seat learn.
ghost use Rattle.std.specs.Prelude.{◌≡◌, ◌<◌, IfOk, OnOk};
ghost use Rattle.std.specs.Option.{option_map};
ghost use Rattle.core_parts.specs.Boards.{giver_left, taker_joined};
ghost use Rattle.core_parts.specs.Lists.{joined, left};
ghost use Rattle.mark_world.specs.Pages.{slot_words};
ghost use Rattle.mark_world.specs.Coverage.{cell_of};
ghost use Rattle.mark_world.specs.Steps.{noted, main_spot, main_learns, joined_if_white};
ghost use Rattle.mark_world.specs.Steps.{free_slot_words, blackened, taken_back};
ghost use Rattle.mark_core.specs.Locations.{FitsSpot};

use crate::cells::{cell_of, is_free, is_slot, word_at};
use crate::lists::{join_all, join_by, join_if_white, join_target, join_targets};
use core_parts::{Items, Note, join, leave};
use mark_world::{Event, HelperView, MainView, Snap, World};
use std::alloc::Global;
use tagged_word::{NoMemory, Reading, Word};

/// A log takes the colour that was found of a cell.
pub(crate) fn note_colour(log: &mut Items<Note>, at: u32, found: u64) -> Result<(), NoMemory>
    requires { found < 256 }
    ensures { OnOk result (log.new ≡ noted log.old (Note.Coloured at found)) }
{
    let found = found as u8;
    log.push(Note::Coloured { at, found })
}

/// A cell leaves the giver's list, where the word of the board was free.
pub(crate) fn leave_given(list: &mut Items<u32>, found: u64, at: u32)
    ensures { list.new ≡ giver_left list.old found at }
{
    if found == 0 {
        leave(list, at);
    }
}

/// A cell that a word of the board referred to joins the taker's list.
pub(crate) fn join_taken(list: &mut Items<u32>, found: u64) -> Result<(), NoMemory>
    ensures { OnOk result (list.new ≡ taker_joined list.old found) }
{
    join_by(list, Word(found).address())
}

/// The words of the tagged slots of a cell, in order.
fn slot_words(alloc: Global, world: &World, at: u32, cell: Reading) -> Result<Items<u64>, NoMemory>
    requires { cell_of world.now at ≡ Some cell }
    ensures { IfOk result (λ words. words ≡ slot_words world.now.words at cell) }
{
    let mut words = Items::new(alloc);
    for offset in 0..cell.size {
        if is_slot(cell, offset) {
            words.push(word_at(world.words.as_slice(), at as u64 + offset as u64))?;
        }
    }
    Ok(words)
}

/// The words of the tagged slots of a cell, if it is a free start.
fn free_slot_words(alloc: Global, world: &World, at: u32) -> Result<Items<u64>, NoMemory>
    ensures { let w = world.now in IfOk result (λ words.
        words ≡ free_slot_words w.old w.words w.layouts w.main at) }
{
    if !is_free(&world.main, at) {
        return Ok(Items::new(alloc));
    }
    match cell_of(world, at) {
        Some(cell) => slot_words(alloc, world, at, cell),
        None => Ok(Items::new(alloc)),
    }
}

/// What the mutator knows once it has shaded a cell.
fn shade(main: &mut MainView, at: u32, found: u64) -> Result<(), NoMemory>
    requires { found < 256 }
    ensures { OnOk result (main.new ≡ record main.old {
      sure = joined main.old.sure at;
      owed = left main.old.owed at;
      grey = joined_if_white main.old.grey found at;
      log = noted main.old.log (Note.Coloured at found);
    }) }
{
    join(&mut main.sure, at)?;
    leave(&mut main.owed, at);
    join_if_white(&mut main.grey, found, at)?;
    note_colour(&mut main.log, at, found)
}

/// What the mutator knows once it has made a cell black whose tagged slots hold words.
fn blacken(
    main: &mut MainView,
    old: u32,
    at: u32,
    found: u64,
    words: &[u64],
) -> Result<(), NoMemory>
    requires { found < 256 }
    ensures { OnOk result (main.new ≡ blackened old main.old at found words.now) }
{
    join(&mut main.mine, at)?;
    join_targets(&mut main.sure, old, words)?;
    if found != 2 {
        join_targets(&mut main.owed, old, words)?;
    }
    leave(&mut main.grey, at);
    note_colour(&mut main.log, at, found)
}

/// What the mutator knows once it has made a new cell black.
fn add_new(main: &mut MainView, at: u32) -> Result<(), NoMemory>
    ensures { OnOk result (main.new ≡ record main.old {
      starts = joined main.old.starts at;
      born = joined main.old.born at;
      mine = joined main.old.mine at;
    }) }
{
    join(&mut main.starts, at)?;
    join(&mut main.born, at)?;
    join(&mut main.mine, at)?;
    Ok(())
}

/// What the mutator knows once it has given a cell to the board.
fn give(main: &mut MainView, place: u32, at: u32, found: u64) -> Result<(), NoMemory>
    ensures { OnOk result (main.new ≡ record main.old {
      grey = giver_left main.old.grey found at;
      log = noted main.old.log (Note.Gave place found);
    }) }
{
    leave_given(&mut main.grey, found, at);
    main.log.push(Note::Gave { place, found })
}

/// What the mutator knows once it has taken a cell from the board.
fn take(main: &mut MainView, place: u32, found: u64) -> Result<(), NoMemory>
    ensures { OnOk result (main.new ≡ record main.old {
      grey = taker_joined main.old.grey found;
      log = noted main.old.log (Note.Took place found);
    }) }
{
    join_taken(&mut main.grey, found)?;
    main.log.push(Note::Took { place, found })
}

/// What the mutator knows after a step of its own, by the word found.
pub(crate) fn learn_main(
    alloc: Global,
    world: &mut World,
    event: Event,
    found: u64,
) -> Result<(), NoMemory>
    requires { FitsSpot (main_spot event) found }
    ensures { let w = world.entry.now in OnOk result (world.exit.now ≡ record w {
      main = main_learns w.old w.words w.layouts w.main event found;
    }) }
{
    match event {
        Event::StoreSlot { at: _, word } => { join_target(&mut world.main.owed, world.old, word) }
        Event::ShadeMain { at } => shade(&mut world.main, at, found),
        Event::Blacken { at } => {
            let words = free_slot_words(alloc, world, at)?;
            blacken(&mut world.main, world.old, at, found, words.as_slice())
        }
        Event::NewBlack { at } => add_new(&mut world.main, at),
        Event::GiveMain { place, at } => give(&mut world.main, place, at, found),
        Event::TakeMain { place } => take(&mut world.main, place, found),
        _ => Ok(()),
    }
}

/// What the mutator knows once it has taken a seat back.
pub(crate) fn take_back(main: &mut MainView, view: &HelperView) -> Result<(), NoMemory>
    ensures { OnOk result (main.new ≡ taken_back main.old view.now) }
{
    join_all(&mut main.owed, view.visit.as_slice())?;
    join_all(&mut main.grey, view.grey.as_slice())?;
    join_by(&mut main.grey, snap_cell(&view.snap))
}

/// The cell of a snap, if there is one.
fn snap_cell(snap: &Option<Snap>) -> Option<u32>
    ensures { result ≡ option_map (λ snap. snap.cell) snap.now }
{
    match snap {
        Some(snap) => Some(snap.cell),
        None => None,
    }
}
