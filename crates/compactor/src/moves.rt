//! The table of places: for each word of a page the address to which the cell that begins there comes.
ghost use Rattle.std.specs.Prelude.{◌≡◌, ◌≢◌, ℕ, ◌<◌, ◌≤◌, length, slice_index_or, IfOk};
ghost use Rattle.std.specs.Vec.{vec_capacity};
ghost use Rattle.page_space.specs.Extents.{eden_start};
ghost use Rattle.compactor.specs.Tables.{moved_word, place_in};

use page_space::{PAGE_WORDS, Regions};
use std::alloc::Global;
use std::marker::Model;
use tagged_word::{NoMemory, Word};

/// How many places are written at once where an address has none: so where addresses ascend most have one.
const STRETCH: usize = 4096;

/// Where each cell of a page comes in a compaction. The memory is reserved when the table is made, and written when
/// the table is first used.
#[derive(Drop)]
pub struct Moves {
    // The first address after all pages.
    bound: u32,
    // By address: there is room for each below the bound. What was not written is 0.
    places: Vec<u32>,
}

impl Model for Moves {
    ghost use Rattle.compactor.specs.Tables.{Table};

    ghost Value = { Table };

    ghost use Rattle.compactor.specs.Model.{table_of, HasRoom};

    ghost view = { table_of };

    ghost invariant = { HasRoom };
}

/// Writes the places that are missing up to that of an address, and some after it, in the room that there is. It
/// stands apart, so that what `put` inlines stays small.
#[inline(never)]
fn grow(places: &mut Vec<u32>, at: u32, bound: u32)
    requires below { at < bound }
    requires room { bound ≤ vec_capacity places.old }
    requires none { length places.old.items ≤ at }
    ensures reached { at < length places.new.items }
    ensures same { (other : ℕ) →
        slice_index_or places.new.items other 0 ≡ slice_index_or places.old.items other 0 }
    ensures room { bound ≤ vec_capacity places.new }
{
    let count = (at as usize + STRETCH).min(bound as usize);
    if places.resize(count, 0).is_err() {
        unreachable!();
    }
}

impl Moves {
    /// A table for a heap with these regions. It takes all the memory that it needs: later calls take none.
    pub fn new(alloc: Global, regions: &Regions) -> Result<Moves, NoMemory>
        ensures { IfOk result (λ moves. moves.bound ≡ eden_start regions.now) }
    {
        regions.sizes_fit();
        let bound = PAGE_WORDS * regions.sizes().pages;
        let places = Vec::with_capacity(alloc, bound as usize)?;
        Ok(Moves { bound, places })
    }

    /// The place of the cell at an address of a page.
    #[inline(always)]
    pub(crate) fn place(&self, at: u32) -> u32
        ensures { result ≡ place_in self.now at }
    {
        if (at as usize) < self.places.len() {
            self.places[at as usize]
        } else {
            0
        }
    }

    /// Puts the place of the cell at an address of a page.
    #[inline(always)]
    pub(crate) fn put(&mut self, at: u32, place: u32)
        requires { at < self.old.bound }
        ensures own { place_in self.new at ≡ place }
        ensures others { (other : ℕ) → other ≢ at → place_in self.new other ≡ place_in self.old other }
        ensures bound { self.new.bound ≡ self.old.bound }
    {
        if at as usize >= self.places.len() {
            grow(&mut self.places, at, self.bound);
        }
        self.places[at as usize] = place;
    }

    /// The word of a slot once the cells have moved: a reference to a cell of a page is one to its place, and any
    /// other word stays.
    #[inline(always)]
    pub(crate) fn moved(&self, word: Word) -> Word
        ensures { result.0 ≡ moved_word self.now word.0 }
    {
        let Some(at) = word.address() else {
            return word;
        };
        if at < self.bound {
            return Word::reference(self.place(at));
        }
        word
    }
}
