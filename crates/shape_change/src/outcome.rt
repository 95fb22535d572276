//! What a caller learns of a field that was to be set: whether it was, or also why not. Why not is in `stop.rt`.
ghost use Rattle.std.specs.Prelude.{◌≡◌, Result, Ok, Err, is_ok};
ghost use Rattle.shape_change.specs.declared.stop.FieldStop.{FieldStop as Why};

use crate::stop::FieldStop;

/// What a caller learns of a field that was to be set. A loop over many takes `bool`, which costs it no register; where
/// the reason counts it is `Result<(), FieldStop>`.
pub trait FieldOutcome: Sized {
    // It tells that the call came out so.
    ghost Tells: { Self → Result Unit Why → Type 0 };

    /// The field was set.
    fn done() -> Self
        ensures { Tells result (Ok tt) };

    /// The field was not set.
    fn refused(stop: FieldStop) -> Self
        ensures { Tells result (Err stop) };
}

impl FieldOutcome for bool {
    ghost Tells = { λ told came. told ≡ is_ok came };

    #[inline(always)]
    fn done() -> bool {
        true
    }

    #[inline(always)]
    fn refused(_stop: FieldStop) -> bool {
        false
    }
}

impl FieldOutcome for Result<(), FieldStop> {
    ghost Tells = { λ told came. told ≡ came };

    #[inline(always)]
    fn done() -> Result<(), FieldStop> {
        Ok(())
    }

    #[inline(always)]
    fn refused(stop: FieldStop) -> Result<(), FieldStop> {
        Err(stop)
    }
}

/// What a caller learns of a field that came out so.
#[inline(always)]
pub(crate) fn told<O: FieldOutcome>(came: Result<(), FieldStop>) -> O
    ensures { O.Tells result came }
{
    match came {
        Ok(()) => O::done(),
        Err(stop) => O::refused(stop),
    }
}
