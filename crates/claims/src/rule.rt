//! The table, and the rule that each step on its words keeps.
ghost use Rattle.std.specs.Prelude.{◌≡◌, [], IfOk};

use crate::owner::Owner;
use crate::view::View;
use atomic_table::{Seat, Table, TableRule};
use std::alloc::Global;
use std::marker::Model;
use tagged_word::NoMemory;

/// The rule of the table, `KeepsRule`.
pub struct Ruled;

impl TableRule<(), View, u32> for Ruled {
    ghost use Rattle.claims.specs.Keeping.{KeepsRule};
    ghost use Rattle.claims.specs.Changes.{beginning};
    ghost use Rattle.claims.specs.declared.view.View.TheVariants.{Owning};

    ghost holds = { λ places state. KeepsRule places state };

    ghost first = { λ places. Owning (beginning places) };
}

/// The places, a word for each, which threads share by `&`. There is one word more, so that a table of no places has
/// one at which the owner steps.
#[derive(Drop)]
pub struct Claims {
    pub(crate) table: Table<(), View, u32, Ruled, Global>,
}

impl Model for Claims {
    ghost use Rattle.claims.specs.Sides.{PlacesSide};

    ghost Value = { PlacesSide };

    ghost use Rattle.claims.specs.Seated.{places_of, IsSized};

    ghost view = { places_of };

    ghost invariant = { IsSized };
}

impl Claims {
    /// Opens a table of so many places in its first round, in which none is claimed.
    ///
    /// # Errors
    /// Out of memory.
    pub fn open(alloc: Global, places: u32) -> Result<(Claims, Owner), NoMemory>
        ensures places { IfOk result (λ opened. opened.0.places ≡ places) }
        ensures owner { IfOk result (λ opened. opened.1 ≡
            record { table = opened.0.table; round = 1; out = 0; made = []; seen = [] }) }
    {
        let words = Vec::from_elem(alloc, 0u64, places as usize + 1)?;
        let (table, seat): (Table<(), View, u32, Ruled, Global>, Seat<(), View>) = Table::of_words(
            alloc,
            words.as_slice(),
            &places,
        )?;
        let owner = Owner {
            round: 1,
            out: 0,
            seat,
        };
        Ok((Claims { table }, owner))
    }
}
