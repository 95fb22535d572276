//! Tables with no cycle, of no page, of one and of 512 (`shared_table`). What is expected is worked out by hand.
ghost use Rattle.std.specs.Prelude.{◌≡◌, true};
ghost use Rattle.shared_table.specs.declared.phase.Phase.TheVariants.{Quiet};

use shared_table::{Colour, Counts, MainSide, Phase, SharedTable};
use std::test::Fail;

/// Puts a word of a page, if there is one at the address.
fn put_at(side: &mut MainSide, a: u32, word: u64)
    requires { side.old.main.phase ≡ Quiet }
    ensures { side.new.main.phase ≡ Quiet }
{
    if a < side.counts().old {
        side.store_owned(a, word);
    }
}

/// Puts a layout word, if there is such a shape.
fn put_layout_at(side: &mut MainSide, shape: u32, word: u64)
    requires { side.old.main.phase ≡ Quiet }
    ensures { side.new.main.phase ≡ Quiet }
{
    if shape < side.counts().shapes {
        side.put_layout(shape, word);
    }
}

/// The colour of a word of a page, if there is one at the address.
fn colour_at(side: &mut MainSide, a: u32) -> Option<Colour>
    requires { side.old.main.phase ≡ Quiet }
    ensures { side.new.main.phase ≡ Quiet }
{
    if a < side.counts().old {
        Some(side.colour(a))
    } else {
        None
    }
}

#[test]
fn a_new_table_is_white_and_quiet_whatever_its_size(rt: HostRuntime) -> Result<(), Fail> {
    for (pages, shapes, last) in [
        (0, 0, None),
        (1, 8_200, Some(2_047)),
        (512, 8_200, Some(1_048_575)),
    ] {
        let counts = Counts {
            old: 2_048 * pages,
            shapes,
        };
        let mut side = SharedTable::open(rt.alloc(), counts)?;
        assert!(rt; matches!(side.phase(), Phase::Quiet));
        assert!(rt; side.counts() == counts);
        put_at(&mut side, 0, 6);
        put_at(&mut side, 2_047, 13);
        put_layout_at(&mut side, 0, 2);
        put_layout_at(&mut side, 8_199, 3);
        assert!(rt; colour_at(&mut side, 2_048 * pages).is_none());
        if let Some(last) = last {
            assert!(rt; colour_at(&mut side, 0) == Some(Colour::White));
            assert!(rt; colour_at(&mut side, last) == Some(Colour::White));
        }
        let _shared = side.table()?;
    }
    Ok(())
}
