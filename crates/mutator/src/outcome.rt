//! What a caller learns of a command that was to be carried out: whether it was, or also why not. Why not is in
//! `stop.rt`.
ghost use Rattle.std.specs.Prelude.{◌≡◌, Result, Ok, Err, is_ok};
ghost use Rattle.shape_change.specs.declared.stop.FieldStop.{FieldStop as WhyNoField};
ghost use Rattle.mutator.specs.declared.stop.Stop.{Stop as Why};
ghost use Rattle.mutator.specs.Stops.{stop_in};

use crate::stop::Stop;
use shape_change::{FieldOutcome, FieldStop};

/// What a caller learns of a command that was to be carried out. The loop over lines takes `bool`, which costs it no
/// register; where the reason counts it is `Explained`.
pub trait Outcome: FieldOutcome {
    // It says that the command came out so.
    ghost Says: { Self → Result Unit Why → Type 0 };

    /// The command came out so.
    fn of(came: Result<(), Stop>) -> Self
        ensures { Says result came };

    // What is told of a field is said of its command.
    ghost of_field: { (told : Self) (came : Result Unit WhyNoField) → Self.Tells told came → Says told (stop_in came) };
}

impl Outcome for bool {
    ghost use Rattle.mutator.specs.Stops.{is_ok_in};

    ghost Says = { λ said came. said ≡ is_ok came };

    ghost of_field = { is_ok_in };

    #[inline(always)]
    fn of(came: Result<(), Stop>) -> bool {
        came.is_ok()
    }
}

/// How a command came out, and why it stopped if it did.
#[derive(Clone, Copy)]
pub struct Explained {
    pub came: Result<(), Stop>,
}

impl FieldOutcome for Explained {
    ghost Tells = { λ told came. told.came ≡ stop_in came };

    #[inline(always)]
    fn done() -> Explained {
        Explained { came: Ok(()) }
    }

    #[inline(always)]
    fn refused(stop: FieldStop) -> Explained {
        Explained {
            came: Err(Stop::from(stop)),
        }
    }
}

impl Outcome for Explained {
    ghost Says = { λ said came. said.came ≡ came };

    ghost of_field = { λ _ _ same. same };

    #[inline(always)]
    fn of(came: Result<(), Stop>) -> Explained {
        Explained { came }
    }
}
