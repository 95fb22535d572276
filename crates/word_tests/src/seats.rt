//! A table of one page and a nursery of 64 words, with one variable: the heap words are 2,048, 64,
//! twice 64, 2 and 8,200 (`heap_table`).
ghost use Rattle.std.specs.Prelude.{◌≡◌, None};
ghost use Rattle.heap_table.specs.Phases.{Quiet};

use cell_layout::cell_at;
use heap_table::{HeapTable, MainSeat, OwnWords, Phase};
use page_space::{Regions, Sizes};
use std::test::Fail;
use tagged_word::shape;
use word_store::Reads;

/// How many words stand before the marks.
const HEAP_WORDS: u32 = 10_442;

fn one_page() -> Regions {
    let sizes = Sizes {
        pages: 1,
        young: 64,
        helpers: 0,
    };
    Regions::new(sizes, 1)
}

/// Puts a word of the heap, if it stands before the marks, where there is no shared table.
fn put_at(seat: &mut MainSeat, a: u32, word: u64)
    requires quiet { seat.old.phase ≡ Quiet }
    requires alone { seat.old.shared ≡ None }
    ensures quiet { seat.new.phase ≡ Quiet }
    ensures alone { seat.new.shared ≡ None }
{
    let _regions = seat.regions();
    if a < seat.count() {
        seat.put_own(a, word);
    }
}

/// The word at an address, as commands read it; none from the marks on, where the table has no words.
fn word_at(seat: &MainSeat, a: u32) -> Option<u64> {
    let _regions = seat.regions();
    if a < seat.count() {
        Some(seat.word(a))
    } else {
        None
    }
}

/// Puts a layout word of a shape that there may be.
fn put_layout_at(seat: &mut MainSeat, shape: u32, word: u64)
    requires { seat.old.phase ≡ Quiet }
    ensures { seat.new.phase ≡ Quiet }
{
    if shape < shape::COUNT {
        seat.put_layout(shape, word);
    }
}

/// Copies the three words at 3 to 1,000.
fn copy_three(seat: &mut MainSeat)
    requires { seat.old.phase ≡ Quiet }
    ensures { seat.new.phase ≡ Quiet }
{
    let _regions = seat.regions();
    if seat.count() >= 1_003 {
        seat.copy(3, 1_000, 3);
    }
}

fn may_be_shared_and_sent<T: Sync, S: Send>() {}

#[test]
fn a_new_table_is_0_and_what_is_put_and_copied_is_read_again(rt: HostRuntime) -> Result<(), Fail> {
    may_be_shared_and_sent::<HeapTable, MainSeat>();
    may_be_shared_and_sent::<OwnWords, MainSeat>();
    let mut seat = HeapTable::open(rt.alloc(), one_page(), false)?;
    assert!(rt; matches!(seat.phase(), Phase::Quiet));
    assert!(rt; seat.count() == HEAP_WORDS);
    for a in 0..HEAP_WORDS {
        assert!(rt; word_at(&seat, a) == Some(0), "address {a}");
    }
    put_at(&mut seat, 0, 5);
    // A gap of 3 words at 3, and the layout word of gaps.
    put_at(&mut seat, 3, 30);
    put_at(&mut seat, 4, 3);
    put_at(&mut seat, HEAP_WORDS - 1, u64::MAX);
    put_layout_at(&mut seat, 7, 8);
    copy_three(&mut seat);
    match cell_at(&mut seat, &one_page(), 1_000) {
        Ok(cell) => assert!(rt; cell.size == 3 && cell.length == 3),
        Err(_) => return Err(Fail::from("no cell")),
    }
    for (a, word) in [
        (0, 5),
        (1, 0),
        (3, 30),
        (4, 3),
        (999, 0),
        (1_000, 30),
        (1_001, 3),
        (1_002, 0),
        (1_003, 0),
        (2_249, 8),
        (HEAP_WORDS - 2, 0),
        (HEAP_WORDS - 1, u64::MAX),
    ] {
        assert!(rt; word_at(&seat, a) == Some(word), "address {a}");
    }
    assert!(rt; word_at(&seat, HEAP_WORDS).is_none());
    Ok(())
}
