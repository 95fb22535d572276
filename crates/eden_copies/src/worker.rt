//! A worker: its room, and what it has copied there.
ghost use Rattle.std.specs.Prelude.{◌≡◌, ◌+◌, ◌-◌, ◌<◌, ◌≤◌, ◌++◌, ◌∷◌, [], length, take, drop, slice_get, slice_set};
ghost use Rattle.std.specs.Prelude.{Some, IfOk};
ghost use Rattle.std.specs.Vec.{vec_capacity};
ghost use Rattle.page_space.specs.Extents.{marks_start};
ghost use Rattle.eden_copies.specs.Sides.{idle, end_of};

use page_space::Regions;
use scav_copy::Home;
use shared_table::OwnWords;
use std::alloc::Global;
use std::marker::Model;
use tagged_word::NoMemory;

/// A worker with a room, whose words stand for those of a segment.
#[derive(Drop)]
pub struct Worker {
    pub(crate) most: u32,
    pub(crate) start: u32,
    pub(crate) room: Vec<u64>,
    pub(crate) copies: Vec<Home>,
    pub(crate) left: Vec<u32>,
}

impl Model for Worker {
    ghost use Rattle.eden_copies.specs.Sides.{WorkerSide};

    ghost Value = { WorkerSide };

    ghost use Rattle.eden_copies.specs.Kept.{side_of, IsRoomy};

    ghost view = { side_of };

    ghost invariant = { IsRoomy };
}

/// Puts so many words from an address on behind those of a room.
fn append(room: &mut Vec<u64>, words: &OwnWords, at: u32, count: u32)
    requires there { at + count ≤ marks_start words.now.space }
    requires fits { length room.old.items + count ≤ vec_capacity room.old }
    ensures items { room.new.items ≡ room.old.items ++ take count (drop at words.now.words) }
    ensures capacity { vec_capacity room.new ≡ vec_capacity room.old }
{
    // There is a word for each address before the marks.
    let _count = words.count();
    for offset in 0..count {
        room.push_reserved(words.slot(at, offset));
    }
}

impl Worker {
    /// A worker for a heap. It takes all the memory that its runs need.
    ///
    /// # Errors
    /// Out of memory.
    pub fn new(alloc: Global, regions: &Regions) -> Result<Worker, NoMemory>
        ensures { IfOk result (λ worker. worker ≡ idle regions.now.sizes.young 0) }
    {
        let most = regions.sizes().young;
        let places = most as usize;
        Ok(Worker {
            most,
            start: 0,
            room: Vec::with_capacity(alloc, places)?,
            copies: Vec::with_capacity(alloc, places)?,
            left: Vec::with_capacity(alloc, places)?,
        })
    }

    /// How many words its room may have.
    pub fn most(&self) -> u32
        ensures { result ≡ self.now.most }
    {
        self.most
    }

    /// The address that the first word of its room stands for.
    pub fn start(&self) -> u32
        ensures { result ≡ self.now.start }
    {
        self.start
    }

    /// The words of its room.
    pub fn room(&self) -> &[u64]
        ensures { result.now ≡ self.now.room }
    {
        self.room.as_slice()
    }

    /// The copies that count, in order.
    pub fn copies(&self) -> &[Home]
        ensures { result.now ≡ self.now.copies }
    {
        self.copies.as_slice()
    }

    /// The slots of its copies that refer to survivors.
    pub fn left(&self) -> &[u32]
        ensures { result.now ≡ self.now.left }
    {
        self.left.as_slice()
    }

    /// Its room is empty, and stands for the words from an address on.
    pub(crate) fn empty(&mut self, start: u32)
        ensures { self.new ≡ idle self.old.most start }
    {
        self.start = start;
        self.room.clear();
        self.copies.clear();
        self.left.clear();
    }

    /// The address behind the last word of its room.
    pub fn end(&self) -> u32
        requires { end_of self.now ≤ u32.MAX }
        ensures { result ≡ end_of self.now }
    {
        self.start + self.room.len() as u32
    }

    /// Copies so many words from an address on behind those of its room.
    pub(crate) fn copy_words(&mut self, words: &OwnWords, at: u32, count: u32)
        requires there { at + count ≤ marks_start words.now.space }
        requires fits { length self.old.room + count ≤ self.old.most }
        ensures { self.new ≡ record self.old { room = self.old.room ++ take count (drop at words.now.words) } }
    {
        append(&mut self.room, words, at, count);
    }

    /// Uses the words of its room from an address on again.
    pub(crate) fn undo(&mut self, to: u32)
        requires { self.old.start ≤ to }
        ensures { self.new ≡ record self.old { room = take (to - self.old.start) self.old.room } }
    {
        self.room.truncate((to - self.start) as usize);
    }

    /// Counts a copy.
    pub(crate) fn keep(&mut self, home: Home)
        requires { length self.old.copies < self.old.most }
        ensures { self.new ≡ record self.old { copies = self.old.copies ++ home ∷ [] } }
    {
        self.copies.push_reserved(home);
    }

    /// How many copies count.
    pub(crate) fn count(&self) -> usize
        ensures { result ≡ length self.now.copies }
    {
        self.copies.len()
    }

    /// A copy that counts, by its number.
    pub(crate) fn copy(&self, number: usize) -> Home
        requires { number < length self.now.copies }
        ensures { slice_get self.now.copies number ≡ Some result }
    {
        self.copies[number]
    }

    /// Puts a word of its room, by its address.
    pub(crate) fn put(&mut self, at: u32, word: u64)
        requires from { self.old.start ≤ at }
        requires below { at < end_of self.old }
        ensures { self.new ≡ record self.old { room = slice_set self.old.room (at - self.old.start) word } }
    {
        let place = (at - self.start) as usize;
        self.room[place] = word;
    }

    /// Leaves a slot to the main side.
    pub(crate) fn leave(&mut self, slot: u32)
        requires { length self.old.left < self.old.most }
        ensures { self.new ≡ record self.old { left = self.old.left ++ slot ∷ [] } }
    {
        self.left.push_reserved(slot);
    }
}
