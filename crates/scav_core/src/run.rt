//! Lists of events.
ghost use Rattle.std.specs.Prelude.{◌≡◌, ℕ, IfOk, Err};
ghost use Rattle.scav_core.specs.Worlds.{IsFresh};
ghost use Rattle.scav_core.specs.Runs.{ArePossible, after_all, StopsAt};
ghost use Rattle.scav_core.specs.WorldLaws.{HasHeaders, HasCopies, IsCopying, IsUntouched};
ghost use Rattle.scav_core.specs.WorldLaws.{HasWork, HasLogs, IsRenamedWhenDone};

use crate::copying::copied;
use crate::event::Event;
use crate::possible::is_possible;
use crate::step::after;
use crate::world::World;
use core_parts::StepStop;
use std::alloc::Global;

/// The world after all of the events, one after the other, from this start. The first that is not
/// possible stops it. Any start will do; from a fresh one, no cell that was reached is lost, doubled
/// or torn, whatever the events are.
pub fn replay(alloc: Global, start: &World, events: &[Event]) -> Result<World, StepStop>
    ensures possible { IfOk result (λ _. ArePossible start.now events.now) }
    ensures world { IfOk result (λ world. world ≡ after_all start.now events.now) }
    ensures headers { IsFresh start.now → IfOk result (λ world. HasHeaders start.now world) }
    ensures copies { IsFresh start.now → IfOk result (λ world. HasCopies start.now world) }
    ensures copying { IsFresh start.now → IfOk result (λ world. IsCopying start.now world) }
    ensures outside { IsFresh start.now → IfOk result (λ world. IsUntouched start.now world) }
    ensures work { IsFresh start.now → IfOk result (λ world. HasWork world) }
    ensures logs { IsFresh start.now → IfOk result (λ world. HasLogs start.now world) }
    ensures renamed { IsFresh start.now → IfOk result (λ world. IsRenamedWhenDone start.now world) }
    ensures stopped { (at : ℕ) → result ≡ Err (StepStop.NotEnabled at) → StopsAt start.now events.now at }
{
    let mut world = copied(alloc, start)?;
    for at in 0..events.len() {
        let event = events[at];
        if !is_possible(&world, event) {
            return Err(StepStop::NotEnabled { at: at as u64 });
        }
        after(alloc, &mut world, event)?;
    }
    Ok(world)
}
