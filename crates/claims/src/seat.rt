//! A seat at a table of places, which its thread claims by.
ghost use Rattle.std.specs.Prelude.{◌≡◌, ◌<◌, ℕ, Contains};
ghost use Rattle.claims.specs.Claimed.{claim_of};
ghost use Rattle.claims.specs.Sides.{looked, claimed};

use crate::plays::{Exchanges, Looks};
use crate::rule::Claims;
use crate::view::View;
use crate::word::{round_in, value_in, word_of};
use atomic_table::Seat;
use std::marker::Model;

/// A seat that was lent for a round. Its thread has the table beside it, and passes it at each step.
#[derive(Drop)]
pub struct ClaimSeat {
    pub(crate) round: u32,
    pub(crate) seat: Seat<(), View>,
}

impl Model for ClaimSeat {
    ghost use Rattle.claims.specs.Sides.{SeatSide};

    ghost Value = { SeatSide };

    ghost use Rattle.claims.specs.Seated.{seat_side, IsClaiming};

    ghost view = { seat_side };

    ghost invariant = { IsClaiming };
}

impl ClaimSeat {
    /// What a place is claimed for, where it is claimed. Within a round that never changes. Where the result is none,
    /// no claim stood there that the seat had seen, or that a seat made which was taken back before this one was lent.
    #[inline(always)]
    pub fn look(&mut self, claims: &Claims, place: u32) -> Option<u32>
        requires own { self.old.table ≡ claims.now.table }
        requires within { place < claims.now.places }
        ensures looked { self.new ≡ looked self.old place result }
        ensures stays { (value : ℕ) → Contains self.old.seen (claim_of place value) → result ≡ Some value }
    {
        let found = claims
            .table
            .shared
            .load::<Looks>(&mut self.seat, place as usize);
        if round_in(found) == self.round {
            Some(value_in(found))
        } else {
            None
        }
    }

    /// Claims a place for a value.
    ///
    /// # Errors
    /// The place is claimed already; what for. Nothing was changed.
    #[inline(always)]
    pub fn claim(&mut self, claims: &Claims, place: u32, value: u32) -> Result<(), u32>
        requires own { self.old.table ≡ claims.now.table }
        requires within { place < claims.now.places }
        ensures claimed { self.new ≡ claimed self.old place value result }
        ensures stays { (was : ℕ) → Contains self.old.seen (claim_of place was) → result ≡ Err was }
    {
        let stood = claims
            .table
            .shared
            .load::<Looks>(&mut self.seat, place as usize);
        if round_in(stood) == self.round {
            return Err(value_in(stood));
        }
        // A word of an earlier round changes by a claim of this one alone. So another word here is such a claim, and no
        // second try is wanted.
        let came = claims.table.shared.compare_exchange::<Exchanges>(
            &mut self.seat,
            place as usize,
            stood,
            word_of(self.round, value),
        );
        if came == stood {
            Ok(())
        } else {
            Err(value_in(came))
        }
    }
}
