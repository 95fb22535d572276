//! The owner of a table: it begins and ends rounds, and lends seats.
ghost use Rattle.std.specs.Prelude.{◌≡◌, ◌<◌, ◌↔◌, true, false, IsTrue};
ghost use Rattle.claims.specs.Claimed.{AreApart, AreAmong, together};
ghost use Rattle.claims.specs.Halves.{last_round};
ghost use Rattle.claims.specs.Sides.{next_round, lending, lent_by, taking};

use crate::plays::{Begins, Ends, Lends, TakesBack};
use crate::rule::Claims;
use crate::seat::ClaimSeat;
use crate::view::View;
use atomic_table::Seat;
use std::marker::Model;

/// The most seats that may be out at a time.
pub const SEATS_MOST: u32 = 7;

/// The main seat of a table of places.
#[derive(Drop)]
pub struct Owner {
    pub(crate) round: u32,
    // How many seats are out.
    pub(crate) out: u32,
    pub(crate) seat: Seat<(), View>,
}

impl Model for Owner {
    ghost use Rattle.claims.specs.Sides.{OwnerSide};

    ghost Value = { OwnerSide };

    ghost use Rattle.claims.specs.Seated.{owner_side, IsOwning};

    ghost view = { owner_side };

    ghost invariant = { IsOwning };
}

impl Owner {
    /// Begins a new round, in which no place is claimed, and returns whether there is one. Rounds are numbered by 32
    /// bits; none comes after the last.
    pub fn begin(&mut self, claims: &Claims) -> bool
        requires own { self.old.table ≡ claims.now.table }
        requires home { self.old.out ≡ 0 }
        ensures begun { result ≡ true → self.new ≡ next_round self.old }
        ensures same { result ≡ false → self.new ≡ self.old }
        ensures left { IsTrue result ↔ (self.old.round < last_round) }
    {
        if self.round == u32::MAX {
            return false;
        }
        claims.table.shared.load::<Begins>(&mut self.seat, 0);
        self.round += 1;
        true
    }

    /// Lends a seat that has claimed nothing. It knows of all that was claimed or seen by the seats that were taken
    /// back.
    pub fn lend(&mut self, claims: &Claims) -> ClaimSeat
        requires own { self.old.table ≡ claims.now.table }
        requires few { self.old.out < SEATS_MOST }
        ensures lent { self.new ≡ lending self.old }
        ensures seat { result ≡ lent_by self.old }
    {
        let seat = claims.table.shared.split_seat::<Lends>(&mut self.seat);
        self.out += 1;
        ClaimSeat {
            round: self.round,
            seat,
        }
    }

    /// Takes a seat back that this one lent, with what it claimed and saw.
    pub fn take_back(&mut self, claims: &Claims, seat: ClaimSeat)
        requires own { self.old.table ≡ claims.now.table }
        requires lent { seat.table ≡ self.old.table }
        requires some { 0 < self.old.out }
        ensures taken { self.new ≡ taking self.old seat }
    {
        let ClaimSeat { round: _, seat } = seat;
        claims
            .table
            .shared
            .join_seat::<TakesBack>(&mut self.seat, seat);
        self.out -= 1;
    }

    /// With no seat out: no place stands twice in what was claimed in this round, and each claim that was seen was
    /// made.
    pub fn end(&mut self, claims: &Claims)
        requires own { self.old.table ≡ claims.now.table }
        requires home { self.old.out ≡ 0 }
        ensures same { self.new ≡ self.old }
        ensures once { AreApart (together self.old.made) }
        ensures seen { AreAmong self.old.seen (together self.old.made) }
    {
        claims.table.shared.load::<Ends>(&mut self.seat, 0);
    }
}
