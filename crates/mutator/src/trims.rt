//! The commands `shift` and `trunc`, which take elements out of a list at its ends. What they do to
//! its cells is done in `array_trim`.
ghost use Rattle.std.specs.Prelude.{ℕ, List, []};
ghost use Rattle.heap_command.specs.Commands.{IsWithin};
ghost use Rattle.object_graph.specs.Graphs.{Graph};
ghost use Rattle.write_barrier.specs.MutatorState.{MainShows};
ghost use Rattle.mutator.specs.CarriesOut.{Carries, field_numbers};

use crate::lookups::{find_list, integer, operands};
use crate::stop::Stop;
use heap_command::{Command, Operand};
use write_barrier::Main;

/// Takes the first `n` elements out of the list `x`.
///
/// Stops with `unbound`, `notlist`, `notint`, or `range` where the number is below 0 or over the
/// length.
#[inline(always)]
pub fn shift(main: &mut Main, x: u32, n: Operand) -> Result<(), Stop>
    requires shown { (graph : Graph) × MainShows main.old graph }
    requires within { IsWithin main.old.seat.space.variables field_numbers (Command.Shift x n) }
    ensures carried { (graph : Graph) (names : List (List ℕ)) → MainShows main.old graph →
        Carries names main.old main.new graph (Command.Shift x n) [] result }
{
    let (target, count) = operands(main, Operand::Var(x), n)?;
    let from = find_list(main, target)?;
    let gone = integer(count)?;
    array_trim::shift(main, from, gone)?;
    Ok(())
}

/// Leaves the first `n` elements in the list `x`, and takes the others out.
///
/// Stops with `unbound`, `notlist`, `notint`, or `range` where the number is below 0 or over the
/// length.
#[inline(always)]
pub fn trunc(main: &mut Main, x: u32, n: Operand) -> Result<(), Stop>
    requires shown { (graph : Graph) × MainShows main.old graph }
    requires within { IsWithin main.old.seat.space.variables field_numbers (Command.Trunc x n) }
    ensures carried { (graph : Graph) (names : List (List ℕ)) → MainShows main.old graph →
        Carries names main.old main.new graph (Command.Trunc x n) [] result }
{
    let (target, count) = operands(main, Operand::Var(x), n)?;
    let found = find_list(main, target)?;
    let kept = integer(count)?;
    array_trim::truncate(main, found, kept)?;
    Ok(())
}
