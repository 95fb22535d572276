//! The world of marking at one moment.

ghost use Rattle.std.specs.Prelude.{◌≡◌, IfOk};

use crate::views::{MainView, Views};
use core_parts::Items;
use std::alloc::Global;
use tagged_word::NoMemory;

/// The words of the heap's table at one moment of marking, and what each seat knows.
#[derive(Drop)]
pub struct World {
    /// How many words the pages have: a smaller address is that of an old cell's word.
    pub old: u32,
    /// The words of pages, young cells and roots.
    pub words: Items<u64>,
    /// The layout word of each shape; 0 where it is not in use.
    pub layouts: Items<u64>,
    /// The colour of each word of a page, that of a cell at its first: 0 white, 1 grey, 2 black.
    pub colours: Items<u8>,
    /// The words over which seats hand grey cells to one another.
    pub board: Items<u64>,
    /// The mutator's view.
    pub main: MainView,
    /// The views of the seats that were lent, returned ones too.
    pub helpers: Views,
}

impl World {
    /// The same world in memory of its own.
    pub fn copied(&self, alloc: Global) -> Result<World, NoMemory>
        ensures { IfOk result (λ copy. copy ≡ self.now) }
    {
        Ok(World {
            old: self.old,
            words: self.words.copied(alloc)?,
            layouts: self.layouts.copied(alloc)?,
            colours: self.colours.copied(alloc)?,
            board: self.board.copied(alloc)?,
            main: self.main.copied(alloc)?,
            helpers: self.helpers.copied(alloc)?,
        })
    }
}
