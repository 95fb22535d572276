//! Words in memory and borrowed ones, through the bounds that their callers have (`word_store`).

use std::test::Fail;
use word_store::{Reads, SliceWords, VecWords, Words, copy};

/// The word at an address, as generic code reads it; none behind the last.
pub(crate) fn loaded<R: Reads>(words: &mut R, a: u32) -> Option<u64>
    requires steady { R.IsSteady words.old }
{
    if a < words.count() {
        Some(words.load(a))
    } else {
        None
    }
}

#[test]
fn words_are_0_until_they_are_put_or_copied(rt: HostRuntime) -> Result<(), Fail> {
    let mut words = VecWords::new(rt.alloc(), 4)?;
    words.put(1, 11);
    words.put(2, u64::MAX);
    for (a, word) in [
        (0, Some(0)),
        (1, Some(11)),
        (2, Some(u64::MAX)),
        (3, Some(0)),
        (4, None),
    ] {
        assert!(rt; loaded(&mut words, a) == word, "at {a}");
    }
    assert!(rt; words.count() == 4);
    copy(&mut words, 0, 2, 2);
    for (a, word) in [(0, 0), (1, 11), (2, 0), (3, 11)] {
        assert!(rt; loaded(&mut words, a) == Some(word), "copied at {a}");
    }
    let mut borrowed = SliceWords::new(&[5, 6, 7]);
    for (a, word) in [(0, Some(5)), (1, Some(6)), (2, Some(7)), (3, None)] {
        assert!(rt; loaded(&mut borrowed, a) == word, "borrowed at {a}");
    }
    Ok(())
}
