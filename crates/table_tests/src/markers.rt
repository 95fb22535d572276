//! Runs of turns, on a board with no cell (`marker`). What is expected is worked out by hand.
ghost use Rattle.std.specs.Prelude.{◌≡◌, [], None};
ghost use Rattle.shared_table.specs.declared.phase.Phase.TheVariants.{Mark};

use crate::cycles::{bare, begin, own_words};
use crew::OpenGate;
use marker::{Marker, Outcome};
use shared_table::{Counts, MainSide};
use std::test::Fail;

/// What two runs of turns come to, with a seat that was lent for them.
pub(crate) fn runs(side: &mut MainSide, marker: Marker, turns: [u32; 2]) -> [Option<Outcome>; 2]
    requires mark { side.old.main.phase ≡ Mark }
    requires out { side.old.main.out ≡ 0 }
    requires table { marker.table ≡ side.old.table }
    requires free { marker.seat ≡ None }
    requires empty { marker.listing.addresses ≡ [] }
    requires room { marker.listing.bound ≡ side.old.main.old }
    ensures { side.new.main.old ≡ side.old.main.old }
{
    let mut marker = marker;
    marker.attach(side.lend());
    let first = marker.mark_some(turns[0], &OpenGate);
    let second = marker.mark_some(turns[1], &OpenGate);
    if let Some(seat) = marker.detach() {
        side.take_back(seat);
    }
    [first, second]
}

#[test]
fn a_marker_that_finds_nothing_is_drained_after_a_round(rt: HostRuntime) -> Result<(), Fail> {
    let own = own_words(rt.alloc())?;
    let counts = Counts {
        old: 2_048,
        shapes: 8_200,
    };
    let mut side = bare(rt.alloc(), counts)?;
    if 10 < side.counts().old {
        begin(&mut side, &own, 10);
        let marker = Marker::new(rt.alloc(), side.table()?, side.counts().old)?;
        let [first, second] = runs(&mut side, marker, [63, 65]);
        assert!(rt; first == Some(Outcome::Spent { turns: 63 }));
        assert!(rt; second == Some(Outcome::Drained));
    }
    Ok(())
}
