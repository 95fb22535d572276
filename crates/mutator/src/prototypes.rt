//! The command `proto`, which gives a plain object another prototype. What it does to the object's cell is done in
//! `shape_change`.
ghost use Rattle.std.specs.Prelude.{◌≡◌, ℕ, List, [], Option};
ghost use Rattle.heap_command.specs.Commands.{IsWithin};
ghost use Rattle.object_graph.specs.Graphs.{Graph, PlainObject};
ghost use Rattle.object_graph.specs.Prototypes.{makes_ring};
ghost use Rattle.object_graph.specs.declared.value.Value.{Value};
ghost use Rattle.write_barrier.specs.MutatorState.{MainShows};
ghost use Rattle.object_cells.specs.PlainObjects.{IsPlainAt};
ghost use Rattle.shape_change.specs.Prototypes.{GivesProto};
ghost use Rattle.mutator.specs.CarriesOut.{Carries, field_numbers};
ghost use Rattle.mutator.specs.Reading.{StandsFor, IsShownValue};
ghost use Rattle.mutator.specs.Linking.{FindsProtoFor, IsShownLink};

use crate::lookups::{operands, plain};
use crate::stop::Stop;
use handle_roots::Held;
use heap_command::{Command, FaultWord, Operand};
use write_barrier::Main;

/// Gives the plain object `x` the plain object `v` as its prototype, or none where `v` is `undefined`.
///
/// Stops with `unbound`, `notobject` where one of them is something else, or `ring` where the object would come to
/// itself by prototypes.
///
/// It is inlined, so its result and its operand stay in registers. A call of its own would make the loop over lines
/// clear their place on the stack for each line, in four instructions.
#[inline(always)]
pub fn proto(main: &mut Main, x: u32, v: Operand) -> Result<(), Stop>
    requires shown { (graph : Graph) × MainShows main.old graph }
    requires within { IsWithin main.old.seat.space.variables field_numbers (Command.Proto x v) }
    ensures carried { (graph : Graph) (names : List (List ℕ)) → MainShows main.old graph →
        Carries names main.old main.new graph (Command.Proto x v) [] result }
{
    let (target, value) = operands(main, Operand::Var(x), v)?;
    let found = plain(main, target)?;
    let next = prototype_in(main, value)?;
    if closes_ring(main, found.at, next) {
        return Err(Stop::Fault(FaultWord::Ring));
    }
    shape_change::set_proto(main, found.at, next);
    Ok(())
}

/// Where the prototype stands that the value gives an object. `undefined` gives none.
#[inline(always)]
fn prototype_in(main: &Main, held: Held) -> Result<Option<u32>, FaultWord>
    requires { IsShownValue main.now held }
    ensures { (graph : Graph) (value : Value) → MainShows main.now graph →
        StandsFor main.now graph value held → FindsProtoFor main.now graph value result }
{
    match held {
        Held::Undefined => Ok(None),
        other => {
            let found = plain(main, other)?;
            Ok(Some(found.at))
        }
    }
}

/// Whether the plain object at an address would be in a ring with this prototype.
#[inline(always)]
fn closes_ring(main: &Main, object: u32, proto: Option<u32>) -> bool
    requires { IsShownLink main.now object proto }
    ensures { (graph : Graph) (plain : PlainObject) (number : Option ℕ) → MainShows main.now graph →
        IsPlainAt main.now graph object plain → GivesProto main.now graph proto number →
        result ≡ makes_ring graph.objects plain.number number }
{
    match proto {
        Some(target) => shape_change::would_ring(main, object, target),
        None => false,
    }
}
