//! What an event makes of the world.
ghost use Rattle.std.specs.Prelude.{◌≡◌, ◌<◌, length, nat_lt, OnOk};
ghost use Rattle.std.specs.Prelude.{slice_get, slice_index, slice_set};
ghost use Rattle.std.specs.List.{position, position_or_len};
ghost use Rattle.scav_core.specs.Steps.{word_found, words_after, board_after, homes_after};
ghost use Rattle.scav_core.specs.Steps.{worker_of, after_main, stepped_by, after};

use crate::event::Event;
use crate::touching::{home_made, touched, word_after};
use crate::world::World;
use core_parts::Items;
use scav_copy::Home;
use std::alloc::Global;
use tagged_word::NoMemory;

/// The word that an event reads and stores.
#[derive(Clone, Copy)]
pub enum Touch {
    /// None.
    Nothing,
    /// The word at an address.
    Word { at: u64 },
    /// A word of the board.
    Board { place: u32 },
}

/// The worker whose event it is; none for those of the main side.
pub(crate) fn worker_of(event: Event) -> Option<u32>
    ensures { result ≡ worker_of event }
{
    match event {
        Event::Look {} => None,
        Event::Lend {} => None,
        Event::Return { worker } => Some(worker),
        Event::LoadSlot { worker, .. } => Some(worker),
        Event::LoadHeader { worker } => Some(worker),
        Event::LoadBody { worker } => Some(worker),
        Event::CopyWord { worker, .. } => Some(worker),
        Event::Forward { worker, .. } => Some(worker),
        Event::Redirect { worker } => Some(worker),
        Event::Give { worker, .. } => Some(worker),
        Event::Take { worker, .. } => Some(worker),
    }
}

/// Makes of a world what an event makes of it. Without memory it is left open what the world is.
pub fn after(alloc: Global, world: &mut World, event: Event) -> Result<(), NoMemory>
    ensures { OnOk result (world.new ≡ after world.old event) }
{
    match worker_of(event) {
        None => after_main(alloc, world, event),
        Some(worker) => stepped_by(alloc, world, worker, event),
    }
}

/// What an event of the main side makes of the world.
fn after_main(alloc: Global, world: &mut World, event: Event) -> Result<(), NoMemory>
    ensures { OnOk result (world.new ≡ after_main world.old event) }
{
    match event {
        Event::Lend {} => world.workers.lend(alloc),
        Event::Look {} => Ok(()),
        Event::Return { .. } => Ok(()),
        Event::LoadSlot { .. } => Ok(()),
        Event::LoadHeader { .. } => Ok(()),
        Event::LoadBody { .. } => Ok(()),
        Event::CopyWord { .. } => Ok(()),
        Event::Forward { .. } => Ok(()),
        Event::Redirect { .. } => Ok(()),
        Event::Give { .. } => Ok(()),
        Event::Take { .. } => Ok(()),
    }
}

/// What an event of a worker makes of the world.
fn stepped_by(alloc: Global, world: &mut World, worker: u32, event: Event) -> Result<(), NoMemory>
    ensures { OnOk result (world.new ≡
        stepped_by world.old worker event (slice_get world.old.workers worker)) }
{
    if (worker as usize) < world.workers.count() {
        step(alloc, world, worker as usize, event)
    } else {
        Ok(())
    }
}

/// What an event of a worker that there is makes of the world.
fn step(alloc: Global, world: &mut World, worker: usize, event: Event) -> Result<(), NoMemory>
    requires { worker < length world.old.workers }
    ensures { OnOk result (world.new ≡
        stepped_by world.old worker event (slice_get world.old.workers worker)) }
{
    let touch = touched(world.workers.view(worker), event);
    let found = word_found(world, touch);
    let word = word_after(world.workers.view(worker), event, found);
    let made = home_made(world.workers.view(worker), event, found);
    store_word(&mut world.words, touch, word);
    store_board(&mut world.board, touch, word);
    join_home(&mut world.homes, made)?;
    world
        .workers
        .change(alloc, worker, world.cells.as_slice(), event, found)
}

/// The word that is touched.
fn word_found(world: &World, touch: Touch) -> u64
    ensures { result ≡ word_found world.now touch }
{
    match touch {
        Touch::Nothing => 0,
        Touch::Word { at } => word_or_0(world.words.as_slice(), at),
        Touch::Board { place } => word_or_0(world.board.as_slice(), place as u64),
    }
}

/// The word at an address, and 0 behind the last.
pub(crate) fn word_or_0(words: &[u64], at: u64) -> u64
    ensures { result ≡ slice_index words.now at }
{
    if at < words.len() as u64 {
        words[at as usize]
    } else {
        0
    }
}

/// The touched word is this, if it is one of the words.
fn store_word(words: &mut Items<u64>, touch: Touch, word: u64)
    ensures { words.new ≡ words_after words.old touch word }
{
    match touch {
        Touch::Word { at } => set_word(words, at, word),
        Touch::Nothing => (),
        Touch::Board { .. } => (),
    }
}

/// The touched word is this, if it is one of the board.
fn store_board(board: &mut Items<u64>, touch: Touch, word: u64)
    ensures { board.new ≡ board_after board.old touch word }
{
    match touch {
        Touch::Board { place } => set_word(board, place as u64, word),
        Touch::Nothing => (),
        Touch::Word { .. } => (),
    }
}

/// The word at an address is this, if there is one.
fn set_word(words: &mut Items<u64>, at: u64, word: u64)
    ensures { words.new ≡ slice_set words.old at word }
{
    if at < words.as_slice().len() as u64 {
        words.set(at as usize, word);
    }
}

/// The homes with the one that was made, if one was.
fn join_home(homes: &mut Items<Home>, made: Option<Home>) -> Result<(), NoMemory>
    ensures { OnOk result (homes.new ≡ homes_after homes.old made) }
{
    match made {
        None => Ok(()),
        Some(home) => {
            let at = insertion_index(homes.as_slice(), home.from);
            homes.insert(at, home)
        }
    }
}

/// The place of the first home of a later cell, or behind the last.
fn insertion_index(homes: &[Home], from: u32) -> usize
    ensures { result ≡ position_or_len (λ home. nat_lt from home.from) homes.now }
{
    match first_later(homes, from) {
        None => homes.len(),
        Some(at) => at,
    }
}

/// The place of the first home of a later cell.
fn first_later(homes: &[Home], from: u32) -> Option<usize>
    ensures { result ≡ position (λ home. nat_lt from home.from) homes.now }
{
    homes.iter().position(|home| from < home.from)
}
