//! A list of events carried out, one after another.
ghost use Rattle.std.specs.Prelude.{◌≡◌, IfOk, IfErr, length};
ghost use Rattle.mark_world.specs.AfterEvents.{after_all, WerePossible};
ghost use Rattle.mark_world.specs.BetweenCommands.{IsDrained, MarksAll, Settled};
ghost use Rattle.mark_world.specs.OneLayouts.{OneLayout};
ghost use Rattle.mark_laws.specs.Runs.{IsSoundAndBorn, HasNoneOut};
ghost use Rattle.mark_core.specs.Runs.{StopsThere};

use crate::possible::is_possible;
use crate::steps::apply;
use core_parts::StepStop;
use mark_world::{Event, World};
use std::alloc::Global;

/// The world after events, each carried out in the world that those before it left. It stops at the
/// first that is not possible there, and tells its number. From a sound world where marking reaches
/// only born cells it comes to such a world; all that is reached there is black, if nothing waits and
/// the mutator's part is done. Each snap that made its cell black was read under one layout.
pub fn replay(alloc: Global, start: &World, events: &[Event]) -> Result<World, StepStop>
    ensures carried { IfOk result (λ world. world ≡ after_all start.now events.now) }
    ensures possible { IfOk result (λ _. WerePossible start.now events.now (length events.now)) }
    ensures whole { IfOk result (λ world. IsSoundAndBorn start.now → IsSoundAndBorn world) }
    ensures marked { IfOk result (λ world.
        IsSoundAndBorn start.now → IsDrained world → Settled world → MarksAll world) }
    ensures one_layout { IfOk result (λ _. IsSoundAndBorn start.now → HasNoneOut start.now →
        OneLayout start.now events.now) }
    ensures stopped { IfErr result (StopsThere start.now events.now) }
{
    let mut world = start.copied(alloc)?;
    for (at, event) in events.iter().enumerate() {
        if !is_possible(&world, *event) {
            return Err(StepStop::NotEnabled { at: at as u64 });
        }
        apply(alloc, &mut world, *event)?;
    }
    Ok(world)
}
