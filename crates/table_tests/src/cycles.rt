//! A cycle on a table of one page, in which one cell is made (`shared_table`). What is expected is worked out by hand.
ghost use Rattle.std.specs.Prelude.{◌≡◌, ◌<◌, ◌%◌, ◌^◌, IfOk};
ghost use Rattle.tagged_word.specs.Shapes.{shapes_most};
ghost use Rattle.page_space.specs.Sizes.{page_words};
ghost use Rattle.table_tests.specs.OneCell.{IsBare, HasOneCell};

use page_space::{Regions, Sizes};
use shared_table::{Choice, Colour, Counts, MainSide, OwnWords, SharedTable};
use std::alloc::Global;
use std::test::Fail;
use tagged_word::NoMemory;

/// The cycle in which no cell is published so far.
pub(crate) struct Empty;

impl Choice for Empty {
    ghost use Rattle.table_tests.specs.OneCell.{IsEmpty};

    ghost fits = { IsEmpty };
}

/// The cycle that waited, with no cell promoted meanwhile.
struct Same;

impl Choice for Same {
    ghost use Rattle.table_tests.specs.OneCell.{IsSame};

    ghost fits = { IsSame };
}

/// A table with whole pages and all shapes.
pub(crate) fn bare(alloc: Global, counts: Counts) -> Result<MainSide, NoMemory>
    requires pages { counts.old % page_words ≡ 0 }
    requires shapes { counts.shapes ≡ shapes_most }
    ensures { IfOk result (λ side. IsBare side.main) }
{
    SharedTable::open(alloc, counts)
}

/// The own words of a heap of one page. No choice of these tests asks for them.
pub(crate) fn own_words(alloc: Global) -> Result<OwnWords, NoMemory> {
    let sizes = Sizes {
        pages: 1,
        young: 64,
        helpers: 0,
    };
    OwnWords::open(alloc, Regions::new(sizes, 1))
}

/// Opens a cycle, and makes a black cell in it.
pub(crate) fn begin(side: &mut MainSide, own: &OwnWords, at: u32)
    requires bare { IsBare side.old.main }
    requires within { at < side.old.main.old }
    ensures { HasOneCell side.new.main at }
{
    side.open_cycle::<Empty>(own, 0);
    side.new_black(at);
}

/// Lets the cycle wait, and goes on with it. What it was opened with stays.
fn wait(side: &mut MainSide, own: &OwnWords, at: u32)
    requires { HasOneCell side.old.main at }
    ensures cell { HasOneCell side.new.main at }
    ensures reached { side.new.main.reached ≡ side.old.main.reached }
    ensures made { side.new.main.made ≡ side.old.main.made }
{
    side.pause_cycle();
    side.resume_cycle::<Same>(own, 0);
}

/// Which colours the cell has had: when it was shaded, when it was blackened, and at the end of the cycle.
fn colours(side: &mut MainSide, at: u32) -> [Colour; 3]
    requires { HasOneCell side.old.main at }
{
    let shaded = side.shade(at);
    let blackened = side.blacken(at);
    side.close_cycle();
    [shaded, blackened, side.colour(at)]
}

#[test]
fn a_new_cell_is_black_until_the_end_of_its_cycle(rt: HostRuntime) -> Result<(), Fail> {
    let own = own_words(rt.alloc())?;
    let counts = Counts {
        old: 2_048,
        shapes: 8_200,
    };
    for at in [0, 10, 2_047] {
        let mut side = bare(rt.alloc(), counts)?;
        if at < side.counts().old {
            begin(&mut side, &own, at);
            wait(&mut side, &own, at);
            assert!(rt; colours(&mut side, at) == [Colour::Black; 3]);
        }
    }
    Ok(())
}
