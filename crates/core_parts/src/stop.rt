//! Why the steps of a core come to a stop before their end.
ghost use Rattle.std.specs.Prelude.{◌≡◌};

use std::alloc::{AllocError, AllocFailed};
use tagged_word::NoMemory;

/// Why a run of events is not carried out whole.
#[derive(Clone, Copy, Debug, PartialEq, Eq)]
pub enum StepStop {
    /// The event of this number is the first that is not possible in its world.
    NotEnabled { at: u64 },
    /// Memory was refused. It tells nothing of the events.
    NoMemory(NoMemory),
}

impl From<NoMemory> for StepStop {
    ghost use Rattle.core_parts.specs.declared.stop.StepStop.TheVariants.{NoMemory as Refused};

    ghost from_gives = { λ refusal stop. stop ≡ Refused refusal };

    fn from(refusal: NoMemory) -> StepStop {
        StepStop::NoMemory(refusal)
    }
}

impl From<AllocError> for StepStop {
    ghost use Rattle.core_parts.specs.Stops.{WantsMemory};

    ghost from_gives = { λ _ stop. WantsMemory stop };

    fn from(refusal: AllocError) -> StepStop {
        StepStop::NoMemory(NoMemory::from(refusal))
    }
}

impl<T: Drop> From<AllocFailed<T>> for StepStop {
    ghost use Rattle.core_parts.specs.Stops.{WantsMemory};

    ghost from_gives = { λ _ stop. WantsMemory stop };

    fn from(refusal: AllocFailed<T>) -> StepStop {
        StepStop::NoMemory(NoMemory::from(refusal))
    }
}
