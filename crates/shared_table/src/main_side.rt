//! The seat of the thread that runs commands, at the shared table.
ghost use Rattle.std.specs.Prelude.{◌≡◌, ◌+◌, ◌<◌, length, IfOk};
ghost use Rattle.std.specs.Arc.{arc_value};
ghost use Rattle.mark_laws.specs.Types.{Spot};
ghost use Rattle.shared_table.specs.declared.phase.Phase.TheVariants.{Mark};
ghost use Rattle.shared_table.specs.Spots.{with_spot};

use crate::overview::{Counts, View};
use crate::own_words::OwnWords;
use crate::phase::Phase;
use crate::plays::PutsLayout;
use crate::rule::SharedTable;
use atomic_table::Seat;
use std::alloc::Global;
use std::marker::Model;
use std::sync::Arc;
use tagged_word::NoMemory;

/// The main seat of a shared table.
#[derive(Drop)]
pub struct MainSide {
    pub(crate) counts: Counts,
    pub(crate) phase: Phase,
    // How many seats are out.
    pub(crate) out: u64,
    pub(crate) shared: Arc<SharedTable, Global>,
    pub(crate) seat: Seat<OwnWords, View>,
}

impl Model for MainSide {
    ghost use Rattle.shared_table.specs.Seats.{Side};

    ghost Value = { Side };

    ghost use Rattle.shared_table.specs.Seated.{side_of, IsSeated};

    ghost view = { side_of };

    ghost invariant = { IsSeated };
}

impl MainSide {
    /// The phase of the table.
    #[inline(always)]
    pub fn phase(&self) -> Phase
        ensures { result ≡ self.now.main.phase }
    {
        self.phase
    }

    /// The sizes of the table.
    #[inline(always)]
    pub fn counts(&self) -> Counts
        ensures old { result.old ≡ self.now.main.old }
        ensures words { length self.now.main.words ≡ self.now.main.old }
        ensures layouts { length self.now.main.layouts ≡ result.shapes }
        ensures colours { length self.now.main.colours ≡ self.now.main.old }
    {
        self.counts
    }

    /// The table, for a helper's thread.
    ///
    /// # Errors
    /// Out of memory.
    pub fn table(&self) -> Result<Arc<SharedTable, Global>, NoMemory>
        ensures same { IfOk result (λ shared. (arc_value shared).table.shared.table_id ≡ self.now.table) }
    {
        Ok(Arc::try_clone(&self.shared)?)
    }

    /// Puts a layout word while no cycle is open, or while it waits.
    #[inline(always)]
    pub fn put_layout(&mut self, shape: u32, word: u64)
        requires idle { self.old.main.phase ≡ Mark → ⊥ }
        requires within { shape < length self.old.main.layouts }
        ensures put { self.new ≡ record self.old { main = with_spot self.old.main (Spot.Layout shape) word } }
    {
        let place = self.counts.old as usize + shape as usize;
        self.shared
            .table
            .shared
            .store::<PutsLayout>(&mut self.seat, place, word);
    }
}
