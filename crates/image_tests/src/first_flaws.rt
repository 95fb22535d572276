//! The first flaw of forged images, and the counts of whole ones.
use crate::flaws_of_cells::{OF_LISTS, OTHERS, WEAK};
use crate::flaws_of_frames::{ROOTS, ROWS, SIZES, SURVIVORS};
use crate::flaws_of_owners::{ORDER, OWNERS};
use crate::flaws_of_plain_cells::PLAIN;
use crate::images::{Change, Worked, image_of};
use heap_check::{CheckStop, Flaw, check};
use heap_model::HeapImage;
use std::alloc::{AllocError, Global};
use std::test::Fail;

/// Changes of a worked heap, and the flaw that a check finds then: its address, what stands there, what is asked for.
pub(crate) type Forged = (&'static [Change], &'static str);

/// A worked heap, and what is forged of it.
pub(crate) type Group = (&'static Worked, &'static [Forged]);

/// The groups of each part of a whole heap, and of two parts.
const PARTS: [&[Group]; 10] = [
    &SIZES, &ROWS, &SURVIVORS, &ROOTS, &PLAIN, &OF_LISTS, &WEAK, &OTHERS, &OWNERS, &ORDER,
];

/// What a check tells of an image.
fn told(alloc: Global, image: &HeapImage) -> Result<String, AllocError> {
    match check(alloc, image) {
        Ok(counts) => format!(in alloc; "objects {} entries {}", counts.objects, counts.entries),
        Err(CheckStop::Flaw(flaw)) => {
            format!(in alloc; "{} {} {}", flaw.at, flaw.found, flaw.wanted)
        }
        Err(CheckStop::NoMemory) => format!(in alloc; "no memory"),
    }
}

#[test]
fn a_check_tells_the_first_flaw(rt: HostRuntime) -> Result<(), Fail> {
    for groups in &PARTS {
        for (worked, forged) in *groups {
            for (changes, expected) in *forged {
                let image = image_of(&rt, rt.alloc(), worked, changes)?;
                let seen = told(rt.alloc(), &image)?;
                assert_eq!(rt; seen.as_str(), *expected, "{changes:?}");
            }
        }
    }
    Ok(())
}

#[test]
fn a_stop_tells_its_word_or_that_memory_lacks(rt: HostRuntime) -> Result<(), Fail> {
    let flaw = Flaw {
        at: 131_076,
        found: 2,
        wanted: 7,
    };
    let message = "word 131076 is 2, and 7 is asked for";
    let stops = [
        (CheckStop::Flaw(flaw), message),
        (CheckStop::NoMemory, "no memory"),
    ];
    for (stop, expected) in &stops {
        let seen = format!(in rt.alloc(); "{stop}")?;
        assert_eq!(rt; seen.as_str(), *expected);
    }
    let seen = format!(in rt.alloc(); "{flaw}")?;
    assert_eq!(rt; seen.as_str(), message);
    Ok(())
}
