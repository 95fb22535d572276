//! What each step on a word of the table tells its seat.
use crate::view::View;
use atomic_table::{Join, Play, Split};

/// A place is looked at.
pub(crate) struct Looks;

impl Play<(), View> for Looks {
    ghost use Rattle.claims.specs.Told.{tells_looked};

    ghost then = { tells_looked };
}

/// A word of an earlier round is exchanged for a claim.
pub(crate) struct Exchanges;

impl Play<(), View> for Exchanges {
    ghost use Rattle.claims.specs.Told.{tells_exchanged};

    ghost then = { tells_exchanged };
}

/// A round begins.
pub(crate) struct Begins;

impl Play<(), View> for Begins {
    ghost use Rattle.claims.specs.Told.{tells_begun};

    ghost then = { tells_begun };
}

/// With no seat out it is known what was claimed.
pub(crate) struct Ends;

impl Play<(), View> for Ends {
    ghost use Rattle.claims.specs.Told.{tells_ended};

    ghost then = { tells_ended };
}

/// A seat is lent.
pub(crate) struct Lends;

impl Split<View> for Lends {
    ghost use Rattle.claims.specs.Changes.{lending_view, lent_view};

    ghost left = { lending_view };

    ghost right = { lent_view };
}

/// A seat is taken back.
pub(crate) struct TakesBack;

impl Join<View> for TakesBack {
    ghost use Rattle.claims.specs.Changes.{taking_view};
    ghost use Rattle.claims.specs.declared.view.View.TheVariants.{Gone};

    ghost both = { taking_view };

    ghost spent = { Gone };
}
