//! What a command line asks for, and why it is refused.

use clap::error::ErrorKind;
use page_space::Sizes;
use std::alloc::AllocError;

/// What the program is asked to do. Sizes that the words do not give are 64 pages, 8,192 words of
/// the young generation, and 2 helpers.
#[derive(Clone, Copy, Debug, PartialEq, Eq)]
pub enum Invocation {
    /// Runs a script.
    Run(Sizes),
    /// Runs a script and checks the heap after each full collection.
    Check(Sizes),
    /// Runs the script that a seed generates, with this many forms: at most 30,000.
    Soak { sizes: Sizes, seed: u64, forms: u32 },
    /// Writes the script that a seed generates, with this many forms: at most 30,000.
    Gen { seed: u64, forms: u32 },
}

/// Why words are not read.
#[derive(Clone, Copy, Debug, PartialEq, Eq)]
pub enum WordsStop {
    /// They ask for nothing.
    BadWords,
    /// Memory was refused.
    NoMemory,
}

impl From<AllocError> for WordsStop {
    ghost use Rattle.std.specs.Prelude.{◌≡◌};
    ghost use Rattle.command_line.specs.declared.invocation.WordsStop.TheVariants.{NoMemory};

    ghost from_gives = { λ _ stop. stop ≡ NoMemory };

    fn from(_refused: AllocError) -> Self {
        WordsStop::NoMemory
    }
}

impl From<clap::Error> for WordsStop {
    ghost use Rattle.std.specs.Prelude.{◌≡◌};
    ghost use Rattle.clap.specs.Words.{kind_of};
    ghost use Rattle.command_line.specs.Stops.{stop_of_kind};

    ghost from_gives = { λ error stop. stop ≡ stop_of_kind (kind_of error) };

    fn from(error: clap::Error) -> Self {
        match error.kind() {
            ErrorKind::OutOfMemory => WordsStop::NoMemory,
            _ => WordsStop::BadWords,
        }
    }
}
