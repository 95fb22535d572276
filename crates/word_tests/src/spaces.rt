//! Eden, recorded slots and free runs, in heaps of a page or two (`nursery`, `remembered_set`,
//! `free_runs`). What is expected is worked out by hand.

use free_runs::FreeRuns;
use nursery::Nursery;
use page_space::{Regions, Run, Sizes};
use remembered_set::Remembered;
use std::test::Fail;

#[test]
fn eden_fills_to_its_last_word_and_survivors_change_halves(rt: HostRuntime) {
    // Eden begins behind one page of 2,048 words, and has 64.
    let sizes = Sizes {
        pages: 1,
        young: 64,
        helpers: 0,
    };
    let mut nursery = Nursery::new(&Regions::new(sizes, 1));
    assert!(rt; nursery.half() == 0);
    assert!(rt; nursery.bump(40) == Some(2_048));
    assert!(rt; nursery.bump(25).is_none());
    assert!(rt; nursery.bump(24) == Some(2_088));
    assert!(rt; !nursery.has_room(1));
    assert!(rt; nursery.bump(u32::MAX).is_none());
    assert!(rt; nursery.used() == 64);
    nursery.turn(10);
    assert!(rt; nursery.half() == 1 && nursery.used() == 0 && nursery.survivors() == 10);
    assert!(rt; nursery.bump(55).is_none());
    assert!(rt; nursery.bump(54) == Some(2_048));
    nursery.turn(64);
    assert!(rt; nursery.half() == 0 && nursery.used() == 0 && nursery.survivors() == 64);
    assert!(rt; nursery.has_room(0));
    assert!(rt; nursery.bump(1).is_none());
}

#[test]
fn cells_are_made_in_what_is_granted_until_it_is_used_up(rt: HostRuntime) {
    // Eden begins behind one page of 2,048 words, and has 64.
    let sizes = Sizes {
        pages: 1,
        young: 64,
        helpers: 0,
    };
    let mut nursery = Nursery::new(&Regions::new(sizes, 1));
    assert!(rt; nursery.granted().words == 0);
    assert!(rt; nursery.bump(60) == Some(2_048));
    // A run that ends with the page. Eden has only 4 words more, and the run has 9.
    nursery.grant(Run {
        at: 2_039,
        words: 9,
    });
    assert!(rt; nursery.has_room(9) && !nursery.has_room(10));
    assert!(rt; nursery.bump(10).is_none());
    assert!(rt; nursery.bump(4) == Some(2_039));
    assert!(rt;
        nursery.granted()
            == Run {
                at: 2_043,
                words: 5
            }
    );
    // What is left is a word short, and stays.
    assert!(rt; nursery.bump(6).is_none());
    assert!(rt;
        nursery.granted()
            == Run {
                at: 2_043,
                words: 5
            }
    );
    assert!(rt; nursery.used() == 60);
    // It is exactly as long, and then cells are made in eden again.
    assert!(rt; nursery.bump(5) == Some(2_043));
    assert!(rt; nursery.granted().words == 0);
    assert!(rt; !nursery.has_room(5));
    assert!(rt; nursery.bump(4) == Some(2_108));
    assert!(rt; nursery.used() == 64);
}

#[test]
fn a_turn_drops_what_was_granted(rt: HostRuntime) {
    // Eden begins behind one page of 2,048 words, and has 64.
    let sizes = Sizes {
        pages: 1,
        young: 64,
        helpers: 0,
    };
    let mut nursery = Nursery::new(&Regions::new(sizes, 1));
    nursery.grant(Run { at: 0, words: 100 });
    assert!(rt; nursery.bump(70) == Some(0));
    nursery.turn(10);
    assert!(rt; nursery.granted().words == 0);
    assert!(rt; nursery.half() == 1 && nursery.used() == 0 && nursery.survivors() == 10);
    assert!(rt; nursery.bump(30) == Some(2_048));
    // A run in place of another.
    nursery.grant(Run { at: 7, words: 3 });
    nursery.grant(Run { at: 20, words: 2 });
    assert!(rt; nursery.bump(3).is_none());
    assert!(rt; nursery.bump(2) == Some(20));
}

#[test]
fn slots_are_found_in_order_until_they_are_forgotten(rt: HostRuntime) -> Result<(), Fail> {
    let mut set = Remembered::new(rt.alloc(), 2)?;
    assert!(rt; set.next(0).is_none());
    set.note(0);
    set.note(4_095);
    set.note(2_048);
    set.note(2_048);
    set.note(5);
    for (from, slot) in [
        (0, Some(0)),
        (1, Some(5)),
        (6, Some(2_048)),
        (2_048, Some(2_048)),
        (2_049, Some(4_095)),
        (4_096, None),
        (u32::MAX, None),
    ] {
        assert!(rt; set.next(from) == slot, "from {from}");
    }
    // A range that is forgotten, an address, and the first slot from it on that is left.
    for (first, end, from, slot) in [
        (2_049, 5, 1, Some(5)),
        (4_096, u32::MAX, 2_049, Some(4_095)),
        (5, 2_049, 1, Some(4_095)),
        (5, 2_049, 0, Some(0)),
        (0, u32::MAX, 0, None),
    ] {
        set.forget_range(first, end);
        assert!(rt; set.next(from) == slot, "from {from}");
    }
    Ok(())
}

/// From two whole pages: how many words are taken, the address and the words of the run that is got,
/// and the words of the longest run that is left. A take looks first at the page of the one before,
/// and then from the first page on.
const TAKEN: [(u32, u32, u32); 5] = [
    (2_000, 0, 2_048),
    (50, 2_048, 1_998),
    (48, 2_098, 1_950),
    (1_950, 2_146, 48),
    (48, 2_000, 0),
];

/// The same from runs of 1, 5 and 3 words at 7, 20 and 40. A run that is used up goes.
const TAKEN_OF_RUNS: [(u32, u32, u32); 4] = [(3, 20, 3), (1, 7, 3), (2, 23, 3), (3, 40, 0)];

/// Takes 1 to 2,048 words. Answers where they begin, and the words of the longest run that is left;
/// none where no run has so many.
fn take(free: &mut FreeRuns, n: u32) -> Option<(u32, u32)> {
    if n < 1 || n > 2_048 {
        return None;
    }
    match free.take(n) {
        Some(run) if run.words == n => Some((run.at, free.longest())),
        _ => None,
    }
}

#[test]
fn words_are_taken_from_the_front_of_runs(rt: HostRuntime) -> Result<(), Fail> {
    let mut free = FreeRuns::new(rt.alloc(), 2)?;
    for (n, at, longest) in TAKEN {
        assert!(rt; take(&mut free, n) == Some((at, longest)), "{n} words");
    }
    assert!(rt; take(&mut free, 1).is_none());
    let mut free = FreeRuns::new(rt.alloc(), 2)?;
    let runs = [
        Run { at: 7, words: 1 },
        Run { at: 20, words: 5 },
        Run { at: 40, words: 3 },
    ];
    free.put_page(1, &[]);
    free.put_page(0, &runs);
    assert!(rt; free.runs(0).len() == 3 && free.longest() == 5);
    for (n, at, longest) in TAKEN_OF_RUNS {
        assert!(rt;
            take(&mut free, n) == Some((at, longest)),
            "{n} words of runs"
        );
    }
    assert!(rt; take(&mut free, 1).is_none());
    Ok(())
}
