//! Room for new cells: in eden, and in runs of pages that are granted.
ghost use Rattle.std.specs.Prelude.{◌≡◌, ◌+◌, ◌≤◌, ◌↔◌, IsTrue, IfOk, OnOk, IfErr, OnErr, is_ok, false};
ghost use Rattle.tagged_word.specs.Cells.{cell_words_most};
ghost use Rattle.page_space.specs.Extents.{eden_start};
ghost use Rattle.nursery.specs.Young.{HasRoom, with_granted};
ghost use Rattle.heap_table.specs.Phases.{Mark};
ghost use Rattle.write_barrier.specs.Seats.{RestStays, heap_words};
ghost use Rattle.heap_model.specs.Remembered.{Touch};
ghost use Rattle.write_barrier.specs.FreeCells.{with_fillers};
ghost use Rattle.write_barrier.specs.MutatorState.{reserved, IsNextRun};
ghost use Rattle.write_barrier.specs.Recording.{Touches, touched};

use crate::free_cells::FILLER;
use crate::main_side::Main;
use page_space::Run;

/// There is no room for so many words: survivors, used words and these are over the words of the
/// young generation, or the granted run has fewer. A scavenge has to come first.
#[derive(Clone, Copy, Debug, PartialEq, Eq)]
pub struct NoRoom {
    /// How many words were asked for.
    pub need: u32,
}

impl Main {
    /// Whether there is room for so many words more: in eden, or in what is granted while it has words.
    pub fn can_reserve(&self, n: u32) -> bool
        ensures { IsTrue result ↔ HasRoom self.now.young n }
    {
        self.nursery.has_room(n)
    }

    /// So many words that were not used, and now are: 1 to 2,048, of eden, or of what is granted while
    /// it has words. The words of the heap are neither read nor written.
    ///
    /// # Errors
    /// There is no room for them; nothing has changed.
    pub fn reserve(&mut self, n: u32) -> Result<Run, NoRoom>
        requires some { 1 ≤ n }
        requires few { n ≤ cell_words_most }
        ensures run { IfOk result (IsNextRun self.old.young n) }
        ensures reserved { OnOk result (self.new ≡ reserved self.old n) }
        ensures room { OnOk result (HasRoom self.old.young n) }
        ensures refused { (is_ok result ≡ false) ↔ (¬ HasRoom self.old.young n) }
        ensures need { IfErr result (λ no_room. no_room.need ≡ n) }
        ensures unchanged { OnErr result (self.new ≡ self.old) }
    {
        // What is granted ends where eden begins, or before.
        self.used_fits();
        let Some(at) = self.nursery.bump(n) else {
            return Err(NoRoom { need: n });
        };
        Ok(Run { at, words: n })
    }

    /// The words of a page that are granted and not yet used.
    pub fn granted(&self) -> Run
        ensures { result ≡ self.now.young.granted }
    {
        self.nursery.granted()
    }

    /// Grants a run of a page: each word of it becomes a filler, of which nothing is recorded, and the
    /// next cells are made in them. What was granted before is granted no more.
    pub fn grant(&mut self, run: Run)
        requires quiet { self.old.seat.phase ≡ Mark → ⊥ }
        requires of_page { run.at + run.words ≤ eden_start self.old.seat.space }
        requires tied { self.old.young.space ≡ self.old.seat.space }
        ensures young { self.new.young ≡ with_granted self.old.young run }
        ensures heap { let words = heap_words self.old.seat in
            heap_words self.new.seat ≡ with_fillers words run.at run.words }
        ensures beside { RestStays self.old.seat self.new.seat }
        ensures paths { self.new.paths ≡ self.old.paths }
        ensures cycle { self.new.cycle ≡ self.old.cycle }
        ensures touches { Touches self.old self.new (touched Touch.Wiped run.at (run.at + run.words)) }
    {
        self.fill(run.at, run.words, FILLER.word().0);
        self.nursery.grant(run);
    }
}
