//! The commands `weak`, `wput`, `wget` and `wdel`, on the entries of a weak map. What they do to its
//! cells is done in `ephemeron_table`.
ghost use Rattle.std.specs.Prelude.{◌≡◌, ℕ, List, [], length, OnOk};
ghost use Rattle.heap_command.specs.Commands.{IsWithin};
ghost use Rattle.object_graph.specs.Graphs.{Graph};
ghost use Rattle.write_barrier.specs.MutatorState.{MainShows};
ghost use Rattle.mutator.specs.Binding.{Binds, BindsMade};
ghost use Rattle.mutator.specs.CarriesOut.{AsksWhereFull, Carries, field_numbers};

use crate::lookups::{find_weak_map, key, operand, operands};
use crate::making::{WeakCell, new_counted};
use crate::stop::Stop;
use handle_roots::Held;
use heap_command::{Command, Operand};
use write_barrier::Main;

/// Binds `x` to a new weak map without entries. `object` is the number of objects that were made, and
/// becomes the new one's number.
///
/// Stops with `NoRoom` where there is no room for the cell's three words.
#[inline(always)]
pub fn new_weak(main: &mut Main, x: u32, object: u32) -> Result<(), Stop>
    requires shown { (graph : Graph) × MainShows main.old graph × (object ≡ length graph.objects) }
    requires within { IsWithin main.old.seat.space.variables field_numbers (Command.Weak x) }
    ensures carried { (graph : Graph) (names : List (List ℕ)) → MainShows main.old graph →
        object ≡ length graph.objects →
        Carries names main.old main.new graph (Command.Weak x) [] result }
    ensures binds { OnOk result (BindsMade main.old main.new x) }
{
    new_counted::<WeakCell>(main, x, object)
}

/// Gives the entry of the key `k` in the weak map `m` the value.
///
/// Stops with `unbound`, `notweak`, `badkey` where the key is no object, with `NoClear` where the key is
/// new and 256 pairs of the map's table are filled, or for want of room for a new table or box.
#[inline(always)]
pub fn wput(main: &mut Main, m: u32, k: Operand, v: Operand) -> Result<(), Stop>
    requires shown { (graph : Graph) × MainShows main.old graph }
    requires within { IsWithin main.old.seat.space.variables field_numbers (Command.WPut m k v) }
    ensures carried { (graph : Graph) (names : List (List ℕ)) → MainShows main.old graph →
        Carries names main.old main.new graph (Command.WPut m k v) [] result }
    ensures asks { (graph : Graph) → MainShows main.old graph →
        AsksWhereFull main.old graph (Command.WPut m k v) result }
{
    // All three are read before any is judged: `unbound` comes before all other faults.
    let (target, named) = operands(main, Operand::Var(m), k)?;
    let value = operand(main, v)?;
    let found = find_weak_map(main, target)?;
    let at = key(named)?;
    ephemeron_table::put(main, found, at, value)?;
    Ok(())
}

/// Binds `y` to the value of the entry of the key `k` in the weak map `m`, or to `undefined` where
/// there is none.
///
/// Stops with `unbound`, `notweak`, or `badkey` where the key is no object.
#[inline(always)]
pub fn wget(main: &mut Main, y: u32, m: u32, k: Operand) -> Result<(), Stop>
    requires shown { (graph : Graph) × MainShows main.old graph }
    requires within { IsWithin main.old.seat.space.variables field_numbers (Command.WGet y m k) }
    ensures carried { (graph : Graph) (names : List (List ℕ)) → MainShows main.old graph →
        Carries names main.old main.new graph (Command.WGet y m k) [] result }
    ensures binds { OnOk result (Binds main.old main.new y) }
{
    let (target, named) = operands(main, Operand::Var(m), k)?;
    let from = find_weak_map(main, target)?;
    let which = key(named)?;
    let value = ephemeron_table::get(main, from, which);
    main.hold(y, value);
    Ok(())
}

/// Takes the entry of the key `k` out of the weak map `m`. Nothing happens where there is none.
///
/// Stops with `unbound`, `notweak`, or `badkey` where the key is no object.
#[inline(always)]
pub fn wdel(main: &mut Main, m: u32, k: Operand) -> Result<(), Stop>
    requires shown { (graph : Graph) × MainShows main.old graph }
    requires within { IsWithin main.old.seat.space.variables field_numbers (Command.WDel m k) }
    ensures carried { (graph : Graph) (names : List (List ℕ)) → MainShows main.old graph →
        Carries names main.old main.new graph (Command.WDel m k) [] result }
{
    let (target, named) = operands(main, Operand::Var(m), k)?;
    let found = find_weak_map(main, target)?;
    let gone = key(named)?;
    ephemeron_table::delete(main, found, gone);
    Ok(())
}
