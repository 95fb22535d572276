//! A marker visits a list and its store (`marker`). What is expected is worked out by hand.
ghost use Rattle.std.specs.Prelude.{◌≡◌, ◌≤◌};
ghost use Rattle.table_tests.specs.OneCell.{IsBare};
ghost use Rattle.table_tests.specs.TwoCells.{HasBegun, HasTwoCells};

use crate::cycles::{bare, own_words};
use crate::markers::runs;
use marker::{Marker, Outcome};
use shared_table::{Choice, Colour, Counts, MainSide, OwnWords};
use std::test::Fail;

/// The cycle that begins with the two cells.
struct Two;

impl Choice for Two {
    ghost use Rattle.table_tests.specs.TwoCells.{IsTwo};

    ghost fits = { IsTwo };
}

/// Puts a list at 0 and its store at 3, and their layout words.
pub(crate) fn fill(side: &mut MainSide)
    requires bare { IsBare side.old.main }
    requires page { 2048 ≤ side.old.main.old }
    ensures { HasTwoCells side.new.main }
{
    side.store_owned(0, 6);
    side.store_owned(1, 13);
    side.store_owned(3, 14);
    side.store_owned(4, 0);
    side.put_layout(1, 2);
    side.put_layout(3, 4);
}

/// Opens a cycle with the two cells.
pub(crate) fn begin(side: &mut MainSide, own: &OwnWords)
    requires { HasTwoCells side.old.main }
    ensures { HasBegun side.new.main }
{
    side.open_cycle::<Two>(own, 0);
}

/// Shades the list, and gives it to the board. Returns the colour that it had.
fn give_list(side: &mut MainSide) -> Colour
    requires { HasBegun side.old.main }
    ensures phase { side.new.main.phase ≡ side.old.main.phase }
    ensures out { side.new.main.out ≡ side.old.main.out }
    ensures old { side.new.main.old ≡ side.old.main.old }
{
    let colour = side.shade(0);
    side.give_board(0, 0);
    colour
}

#[test]
fn a_marker_takes_a_list_from_the_board_and_blackens_its_store_too(
    rt: HostRuntime,
) -> Result<(), Fail> {
    let own = own_words(rt.alloc())?;
    let counts = Counts {
        old: 2_048,
        shapes: 8_200,
    };
    let mut side = bare(rt.alloc(), counts)?;
    if side.counts().old >= 2_048 {
        fill(&mut side);
        begin(&mut side, &own);
        assert!(rt; give_list(&mut side) == Colour::White);
        let marker = Marker::new(rt.alloc(), side.table()?, side.counts().old)?;
        let [first, second] = runs(&mut side, marker, [2, 1_000]);
        assert!(rt; first == Some(Outcome::Spent { turns: 2 }));
        assert!(rt; second == Some(Outcome::Drained));
        assert!(rt; side.colour(0) == Colour::Black);
        assert!(rt; side.colour(3) == Colour::Black);
    }
    Ok(())
}
