//! The commands `list`, `push`, `put` and `at`, on the elements of a list. What they do to its cells
//! is done in `list_store`.
ghost use Rattle.std.specs.Prelude.{◌≡◌, ℕ, List, [], length, OnOk};
ghost use Rattle.heap_command.specs.Commands.{IsWithin};
ghost use Rattle.object_graph.specs.Graphs.{Graph};
ghost use Rattle.write_barrier.specs.MutatorState.{MainShows};
ghost use Rattle.mutator.specs.Binding.{Binds, BindsMade};
ghost use Rattle.mutator.specs.CarriesOut.{Carries, field_numbers};

use crate::lookups::{find_list, integer, operand, operands};
use crate::making::{ListCell, new_counted};
use crate::stop::Stop;
use heap_command::{Command, Operand};
use write_barrier::Main;

/// Binds `x` to a new list without elements. `object` is the number of objects that were made, and
/// becomes the new one's number.
///
/// Stops with `NoRoom` where there is no room for the cell's three words.
#[inline(always)]
pub fn new_list(main: &mut Main, x: u32, object: u32) -> Result<(), Stop>
    requires shown { (graph : Graph) × MainShows main.old graph × (object ≡ length graph.objects) }
    requires within { IsWithin main.old.seat.space.variables field_numbers (Command.List x) }
    ensures carried { (graph : Graph) (names : List (List ℕ)) → MainShows main.old graph →
        object ≡ length graph.objects →
        Carries names main.old main.new graph (Command.List x) [] result }
    ensures binds { OnOk result (BindsMade main.old main.new x) }
{
    new_counted::<ListCell>(main, x, object)
}

/// Makes the value the last element of the list `x`.
///
/// Stops with `unbound`, `notlist`, `listfull` where the list has 1,000 elements, or for want of room
/// for a new store or box.
#[inline(always)]
pub fn push(main: &mut Main, x: u32, v: Operand) -> Result<(), Stop>
    requires shown { (graph : Graph) × MainShows main.old graph }
    requires within { IsWithin main.old.seat.space.variables field_numbers (Command.Push x v) }
    ensures carried { (graph : Graph) (names : List (List ℕ)) → MainShows main.old graph →
        Carries names main.old main.new graph (Command.Push x v) [] result }
{
    // The value is read before the list is judged: `unbound` comes before `notlist`.
    let (target, value) = operands(main, Operand::Var(x), v)?;
    let found = find_list(main, target)?;
    list_store::push(main, found, value)?;
    Ok(())
}

/// Makes the element of the list `x` at the index `i` the value. Indices are from 0.
///
/// Stops with `unbound`, `notlist`, `notint`, `range` where the index is below 0 or not below the
/// length, or for want of room for a box.
#[inline(always)]
pub fn put(main: &mut Main, x: u32, i: Operand, v: Operand) -> Result<(), Stop>
    requires shown { (graph : Graph) × MainShows main.old graph }
    requires within { IsWithin main.old.seat.space.variables field_numbers (Command.Put x i v) }
    ensures carried { (graph : Graph) (names : List (List ℕ)) → MainShows main.old graph →
        Carries names main.old main.new graph (Command.Put x i v) [] result }
{
    // All three are read before any is judged: `unbound` comes before all other faults.
    let (target, index) = operands(main, Operand::Var(x), i)?;
    let value = operand(main, v)?;
    let found = find_list(main, target)?;
    let place = integer(index)?;
    list_store::put(main, found, place, value)?;
    Ok(())
}

/// Binds `y` to the element of the list `x` at the index `i`. Indices are from 0.
///
/// Stops with `unbound`, `notlist`, `notint`, or `range` where the index is below 0 or not below the
/// length.
#[inline(always)]
pub fn at(main: &mut Main, y: u32, x: u32, i: Operand) -> Result<(), Stop>
    requires shown { (graph : Graph) × MainShows main.old graph }
    requires within { IsWithin main.old.seat.space.variables field_numbers (Command.At y x i) }
    ensures carried { (graph : Graph) (names : List (List ℕ)) → MainShows main.old graph →
        Carries names main.old main.new graph (Command.At y x i) [] result }
    ensures binds { OnOk result (Binds main.old main.new y) }
{
    let (target, index) = operands(main, Operand::Var(x), i)?;
    let from = find_list(main, target)?;
    let which = integer(index)?;
    list_store::hold_at(main, y, from, which)?;
    Ok(())
}
