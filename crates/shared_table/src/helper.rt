//! The seat of a helper, at the shared table.
ghost use Rattle.std.specs.Prelude.{◌≡◌};

use crate::overview::{Counts, View};
use crate::own_words::OwnWords;
use atomic_table::Seat;
use std::marker::Model;

/// A seat that was lent to a helper. Its thread has the table beside it, and passes it at each step.
#[derive(Drop)]
pub struct HelperSeat {
    pub(crate) counts: Counts,
    pub(crate) seat: Seat<OwnWords, View>,
}

impl Model for HelperSeat {
    ghost use Rattle.shared_table.specs.Seats.{Helping};

    ghost Value = { Helping };

    ghost use Rattle.shared_table.specs.Helped.{helping_of, IsHelping};

    ghost view = { helping_of };

    ghost invariant = { IsHelping };
}

impl HelperSeat {
    /// The sizes of the table.
    #[inline(always)]
    pub fn counts(&self) -> Counts
        ensures { result ≡ self.now.lent.counts }
    {
        self.counts
    }
}
