//! What a marking has found, and what waits.
ghost use Rattle.std.specs.Prelude.{◌≡◌, ◌<◌, ◌⊎◌, ◌↔◌, ℕ, Contains, IfOk};
ghost use Rattle.ephemeron_mark.specs.Marked.{none_marked};

use crate::waiting::Waiting;
use cell_list::CellList;
use std::alloc::Global;
use std::marker::Model;
use tagged_word::NoMemory;

/// The marked cells, the weak maps among them, and the pairs that wait. Until `mark_given` is called, the marked cells
/// are those that it is given.
#[derive(Drop)]
pub struct Marking {
    pub(crate) cells: CellList,
    // So many cells were given as seen: the first of the list. So it costs no flag of a cell.
    pub(crate) seen: usize,
    // With room for each address below the bound.
    pub(crate) maps: Vec<u32>,
    pub(crate) waiting: Waiting,
}

impl Model for Marking {
    ghost use Rattle.ephemeron_mark.specs.Marked.{Marked};

    ghost Value = { Marked };

    ghost use Rattle.ephemeron_mark.specs.Model.{marked_of, IsOfOneBound};

    ghost view = { marked_of };

    ghost invariant = { IsOfOneBound };
}

impl Marking {
    /// Nothing is marked, of the cells at addresses below the bound. It takes all the memory that it
    /// needs: later calls take none.
    pub fn new(alloc: Global, bound: u32) -> Result<Marking, NoMemory>
        ensures { IfOk result (λ marking. marking ≡ none_marked bound) }
    {
        let cells = CellList::new(alloc, bound)?;
        let maps = Vec::with_capacity(alloc, bound as usize)?;
        let waiting = Waiting::new(alloc, bound)?;
        Ok(Marking {
            cells,
            seen: 0,
            maps,
            waiting,
        })
    }

    /// Nothing is given, and nothing is marked.
    pub fn begin(&mut self)
        ensures { self.new ≡ none_marked self.old.bound }
    {
        self.cells.clear();
        self.seen = 0;
        self.maps.clear();
    }

    /// Gives a cell to start at, besides those that root words refer to.
    #[inline(always)]
    pub fn give(&mut self, at: u32)
        requires { at < self.old.bound }
        ensures given { (other : ℕ) → Contains self.new.cells other ↔
            (Contains self.old.cells other ⊎ (other ≡ at)) }
        ensures seen { self.new.seen ≡ self.old.seen }
        ensures maps { self.new.maps ≡ self.old.maps }
        ensures bound { self.new.bound ≡ self.old.bound }
    {
        self.cells.push(at);
    }

    /// Gives a cell to start at that leads to given cells, if it is not a weak map: its slots are not
    /// looked at then. One that was given already stays as it was given.
    #[inline(always)]
    pub fn give_seen(&mut self, at: u32)
        requires { at < self.old.bound }
        ensures given { (other : ℕ) → Contains self.new.cells other ↔
            (Contains self.old.cells other ⊎ (other ≡ at)) }
        ensures seen { (other : ℕ) → Contains self.new.seen other ↔
            (Contains self.old.seen other ⊎ ((other ≡ at) × (Contains self.old.cells at → ⊥))) }
        ensures maps { self.new.maps ≡ self.old.maps }
        ensures bound { self.new.bound ≡ self.old.bound }
    {
        if self.cells.push(at) {
            // The first one that is not seen goes to the end.
            self.cells.bring(self.seen);
            self.seen += 1;
        }
    }

    /// The marked cells.
    pub fn cells(&self) -> &CellList
        ensures cells { result.now.addresses ≡ self.now.cells }
        ensures bound { result.now.bound ≡ self.now.bound }
    {
        &self.cells
    }

    /// The weak maps among the marked cells.
    pub fn maps(&self) -> &[u32]
        ensures { result.now ≡ self.now.maps }
    {
        &self.maps
    }
}
