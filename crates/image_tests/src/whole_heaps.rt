//! Which images are whole heaps: worked ones, and ones forged in a word or a few.
use crate::forged_heaps::CASES;
use crate::images::{Change, image_of};
use heap_check::{CheckStop, check, has_rows};
use heap_model::HeapImage;
use std::alloc::Global;
use std::test::Fail;

/// What a check says of an image.
#[derive(Clone, Copy, Debug, PartialEq, Eq)]
pub(crate) enum Verdict {
    /// Its sizes are wrong, cells don't stand in rows, or a word that no cell uses is not 0.
    NoRows,
    /// Sizes and rows are right, and a root, a cell or an owner is wrong.
    Flawed,
    /// It is a whole heap.
    Whole,
}

use Verdict::*;

/// Changes of a worked heap, what it has with them, and the verdict.
pub(crate) type Case = (&'static [Change], &'static str, Verdict);

/// The verdict over an image.
fn judged(alloc: Global, image: &HeapImage) -> Result<Verdict, Fail> {
    match (has_rows(alloc, image), check(alloc, image)) {
        (Ok(false), Err(CheckStop::Flaw(_))) => Ok(NoRows),
        (Ok(true), Err(CheckStop::Flaw(_))) => Ok(Flawed),
        (Ok(true), Ok(_)) => Ok(Whole),
        _ => Err(Fail::from("memory was refused")),
    }
}

#[test]
fn worked_heaps_are_whole_and_forged_ones_are_not(rt: HostRuntime) -> Result<(), Fail> {
    for (worked, cases) in &CASES {
        for (changes, what, expected) in *cases {
            let image = image_of(&rt, rt.alloc(), worked, changes)?;
            assert_eq!(rt; judged(rt.alloc(), &image)?, *expected, "{what}");
        }
    }
    Ok(())
}
