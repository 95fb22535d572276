//! The commands `set`, `get` and `del`, on the fields of a plain object. What they do to its cells
//! is done in `shape_change`; what is written of its shape is said in `shapes.rt`.
ghost use Rattle.std.specs.Prelude.{◌<◌, ℕ, List, [], Result, OnOk, Some};
ghost use Rattle.heap_command.specs.Commands.{IsWithin};
ghost use Rattle.object_graph.specs.Graphs.{Graph, value_of};
ghost use Rattle.write_barrier.specs.MutatorState.{MainShows};
ghost use Rattle.shape_change.specs.FieldValues.{IsFieldValue, given_of};
ghost use Rattle.mutator.specs.declared.stop.Stop.{Stop as Why};
ghost use Rattle.mutator.specs.Binding.{Binds};
ghost use Rattle.mutator.specs.CarriesOut.{Carries, field_numbers};
ghost use Rattle.mutator.specs.Reading.{FindsGiven};

use crate::lookups::{given, headed, plain, small_word, target, why_no_object};
use crate::outcome::Outcome;
use crate::stop::Stop;
use heap_command::{Command, FaultWord, Operand};
use shape_change::FieldValue;
use write_barrier::Main;

/// Gives the field `f` of the plain object `x` the value. A name that is new to the object becomes
/// its last field.
///
/// Stops with `unbound`, `notobject`, `fieldsfull` where the name is new and the object has 64
/// fields, `shapesfull` where there may not be as many field paths, or for want of room for a new
/// property store or box.
#[inline(always)]
pub fn set<O: Outcome>(main: &mut Main, x: u32, f: u32, v: &Operand) -> O
    requires shown { (graph : Graph) × MainShows main.old graph }
    requires within { IsWithin main.old.seat.space.variables field_numbers (Command.Set x f v.now) }
    ensures carried { (came : Result Unit Why) × O.Says result came
        × ((graph : Graph) (names : List (List ℕ)) → MainShows main.old graph →
        Carries names main.old main.new graph (Command.Set x f v.now) [] came) }
{
    // The value is read before the object is judged: `unbound` comes before `notobject`. A small integer is told apart
    // first: most slots take its word, whatever representation they have, and so `set_value` is compiled for it apart.
    match small_word(main, v) {
        Some(word) => set_value(main, x, f, FieldValue::Small(word)),
        None => match given(main, v) {
            Some(value) => set_value(main, x, f, FieldValue::Any(value)),
            None => O::of(Err(Stop::Fault(FaultWord::Unbound))),
        },
    }
}

/// The same of a value that was read.
#[inline(always)]
fn set_value<O: Outcome>(main: &mut Main, x: u32, f: u32, value: FieldValue) -> O
    requires shown { (graph : Graph) × (v : Operand) × MainShows main.old graph
        × FindsGiven main.old graph (value_of graph v) (Some (given_of value)) }
    requires is { IsFieldValue value }
    requires first { x < main.old.seat.space.variables }
    requires second { f < field_numbers }
    ensures carried { (came : Result Unit Why) × O.Says result came
        × ((graph : Graph) (names : List (List ℕ)) (v : Operand) → MainShows main.old graph →
        FindsGiven main.old graph (value_of graph v) (Some (given_of value)) →
        Carries names main.old main.new graph (Command.Set x f v) [] came) }
{
    match headed(main, x) {
        Some((at, header)) => shape_change::set(main, at, header, f, value),
        None => O::of(Err(Stop::Fault(why_no_object(main, x)))),
    }
}

/// Binds `y` to the field `f` of the plain object `x`, or of the nearest of its first 64 prototypes that has one; to
/// `undefined` where none has.
///
/// Stops with `unbound` or `notobject`.
#[inline(always)]
pub fn get<O: Outcome>(main: &mut Main, y: u32, x: u32, f: u32) -> O
    requires shown { (graph : Graph) × MainShows main.old graph }
    requires within { IsWithin main.old.seat.space.variables field_numbers (Command.Get y x f) }
    ensures carried { (came : Result Unit Why) × O.Says result came
        × ((graph : Graph) (names : List (List ℕ)) → MainShows main.old graph →
        Carries names main.old main.new graph (Command.Get y x f) [] came)
        × OnOk came (Binds main.old main.new y) }
{
    match headed(main, x) {
        Some((at, header)) => {
            if shape_change::get::<O>(main, y, at, header, f) {
                O::of(Ok(()))
            } else {
                O::of(Err(Stop::Fault(FaultWord::NotObject)))
            }
        }
        None => O::of(Err(Stop::Fault(why_no_object(main, x)))),
    }
}

/// Takes the field `f` out of the plain object `x`; later fields keep their order. Nothing happens
/// where there is none.
///
/// Stops with `unbound`, `notobject`, or `shapesfull` where there may not be as many field paths.
#[inline(always)]
pub fn del(main: &mut Main, x: u32, f: u32) -> Result<(), Stop>
    requires shown { (graph : Graph) × MainShows main.old graph }
    requires within { IsWithin main.old.seat.space.variables field_numbers (Command.Del x f) }
    ensures carried { (graph : Graph) (names : List (List ℕ)) → MainShows main.old graph →
        Carries names main.old main.new graph (Command.Del x f) [] result }
{
    let held = target(main, x)?;
    let found = plain(main, held)?;
    shape_change::delete(main, found.at, f)?;
    Ok(())
}
