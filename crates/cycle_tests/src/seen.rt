//! What a helper reads on a seat that it is lent: colours of cells of pages, and words. Nothing changes by that.
ghost use Rattle.std.specs.Prelude.{◌≡◌, ℕ};
ghost use Rattle.heap_table.specs.Phases.{Mark};
ghost use Rattle.cycle_tests.specs.Ready.{IsReady, IsSeatOf};

use cell_list::CellList;
use shared_table::{HelperSeat, SharedTable};
use std::alloc::Global;
use std::process::Abort;
use tagged_word::NoMemory;
use word_store::Reads;
use write_barrier::Main;

/// Words at their addresses.
pub(crate) type Words<'a> = &'a [(u32, u64)];

/// The letter of a colour: white, grey or black.
fn letter(colour: u64) -> u8 {
    match colour {
        0 => b'w',
        1 => b'g',
        _ => b'b',
    }
}

/// The cells have these colours, as a helper reads them, each by its letter.
fn has_colours(
    rt: &impl Abort,
    seat: &mut HelperSeat,
    table: &SharedTable,
    cells: &[u32],
    colours: &[u8],
    turn: usize,
)
    requires own { IsSeatOf seat.old table.now }
    ensures same { seat.new ≡ seat.old }
{
    let counts = seat.counts();
    assert_eq!(rt; cells.len(), colours.len());
    for (number, at) in cells.iter().enumerate() {
        assert!(rt; *at < counts.old);
        let colour = seat.look(
            table,
            counts.old as usize + counts.shapes as usize + *at as usize,
        );
        assert_eq!(rt;
            Some(&letter(colour)),
            colours.get(number),
            "cell {at}, turn {turn}"
        );
    }
}

/// The words of the page are these, as a helper reads them.
fn has_words_of_page(
    rt: &impl Abort,
    seat: &mut HelperSeat,
    table: &SharedTable,
    words: Words<'_>,
    turn: usize,
)
    requires own { IsSeatOf seat.old table.now }
    ensures same { seat.new ≡ seat.old }
{
    let counts = seat.counts();
    for (at, word) in words {
        if *at < counts.old {
            assert_eq!(rt;
                seat.look(table, *at as usize),
                *word,
                "at {at}, turn {turn}"
            );
        }
    }
}

/// The words before the marks are these, as the mutator reads them.
pub(crate) fn has_words(rt: &impl Abort, main: &Main, words: Words<'_>, turn: usize) {
    // There are as many words as addresses before the marks.
    let _regions = main.regions();
    for (at, word) in words {
        assert!(rt; *at < main.count());
        assert_eq!(rt; main.word(*at), *word, "at {at}, turn {turn}");
    }
}

/// Cells of a page have these colours, and words are these, as a helper reads them who is lent a seat, and those of no
/// page as the mutator does.
pub(crate) fn has_seen(
    rt: &impl Abort,
    alloc: Global,
    main: &mut Main,
    cells: &[u32],
    colours: &[u8],
    words: Words<'_>,
    turn: usize,
) -> Result<(), NoMemory>
    requires ready { (objects : ℕ) × IsReady main.old objects }
    requires mark { main.old.seat.phase ≡ Mark }
    ensures ready { (objects : ℕ) → IsReady main.old objects → IsReady main.new objects }
    ensures mark { main.new.seat.phase ≡ Mark }
{
    has_words(rt, main, words, turn);
    let table = main.table()?;
    let mut waiting = CellList::new(alloc, 0)?;
    let mut seat = main.lend();
    has_colours(rt, &mut seat, &table, cells, colours, turn);
    has_words_of_page(rt, &mut seat, &table, words, turn);
    main.take_back(seat, &mut waiting);
    Ok(())
}
