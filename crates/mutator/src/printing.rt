//! The commands `print` and `same`, which write a line and leave the heap as it is; and the line of a
//! census. The bytes wait in an `Output` of `output.rt`; what is written of shapes is in `shapes.rt`.
ghost use Rattle.std.specs.Prelude.{◌≡◌, ℕ, ◌+◌, ◌++◌, ◌≤◌, List, length, is_ok, if◌then◌else◌};
ghost use Rattle.heap_command.specs.Commands.{IsWithin};
ghost use Rattle.object_graph.specs.Graphs.{Graph};
ghost use Rattle.object_graph.specs.Texts.{census_text, line, truth_text, value_text};
ghost use Rattle.object_graph.specs.declared.value.Value.{Value};
ghost use Rattle.write_barrier.specs.MutatorState.{MainShows};
ghost use Rattle.mutator.specs.CarriesOut.{Carries, field_numbers};
ghost use Rattle.mutator.specs.Kinds.{noun_by_shape};
ghost use Rattle.mutator.specs.Reading.{IsShownValue, StandsFor};

use crate::lookups::{operand, operands};
use crate::output::{OUTPUT_BYTES, Output, ROOM};
use crate::stop::Stop;
use handle_roots::Held;
use heap_command::{Command, Operand};
use itoa::Buffer;
use tagged_word::shape;
use write_barrier::Main;

/// Writes the value and a line feed: an integer in decimal, `undefined`, or `object`, `list` or
/// `weak` with the object's number. The output has room for `ROOM` bytes.
///
/// Stops with `unbound`.
#[inline(always)]
pub fn print(main: &mut Main, v: Operand, out: &mut Output) -> Result<(), Stop>
    requires shown { (graph : Graph) × MainShows main.old graph }
    requires within { IsWithin main.old.seat.space.variables field_numbers (Command.Print v) }
    requires room { length out.old + ROOM ≤ OUTPUT_BYTES }
    ensures carried { (graph : Graph) (names : List (List ℕ)) → MainShows main.old graph →
        (text : List ℕ)
        × Carries names main.old main.new graph (Command.Print v) text result
        × (out.new ≡ (if is_ok result then out.old ++ text else out.old)) }
    ensures same { main.new ≡ main.old }
{
    let value = operand(main, v)?;
    put_value(main, value, out);
    Ok(())
}

/// Writes `true` and a line feed where the two values are the same integer, both undefined, or the
/// same object, and else `false` and a line feed. The output has room for `ROOM` bytes.
///
/// Stops with `unbound`.
#[inline(always)]
pub fn same(main: &mut Main, a: Operand, b: Operand, out: &mut Output) -> Result<(), Stop>
    requires shown { (graph : Graph) × MainShows main.old graph }
    requires within { IsWithin main.old.seat.space.variables field_numbers (Command.Same a b) }
    requires room { length out.old + ROOM ≤ OUTPUT_BYTES }
    ensures carried { (graph : Graph) (names : List (List ℕ)) → MainShows main.old graph →
        (text : List ℕ)
        × Carries names main.old main.new graph (Command.Same a b) text result
        × (out.new ≡ (if is_ok result then out.old ++ text else out.old)) }
    ensures same { main.new ≡ main.old }
{
    let (first, second) = operands(main, a, b)?;
    // Each object has one place, so two references are to one object where their addresses agree.
    put_truth(first == second, out);
    Ok(())
}

/// Writes `true` or `false`, and a line feed.
#[inline(never)]
pub(crate) fn put_truth(truth: bool, out: &mut Output)
    requires { length out.old + ROOM ≤ OUTPUT_BYTES }
    ensures { out.new ≡ out.old ++ line (truth_text truth) }
{
    if truth {
        out.put(b"true\n");
    } else {
        out.put(b"false\n");
    }
}

/// Writes how many objects there are and how many entries of weak maps, and a line feed. The output
/// has room for `ROOM` bytes.
#[inline(never)]
pub fn put_census(objects: u32, entries: u32, out: &mut Output)
    requires { length out.old + ROOM ≤ OUTPUT_BYTES }
    ensures { out.new ≡ out.old ++ line (census_text objects entries) }
{
    let mut buffer = Buffer::new();
    out.put(b"objects ");
    out.put(buffer.format(objects).as_bytes());
    out.put(b" entries ");
    out.put(buffer.format(entries).as_bytes());
    out.put(b"\n");
}

/// Writes a value, and a line feed.
#[inline(never)]
fn put_value(main: &Main, value: Held, out: &mut Output)
    requires shown { IsShownValue main.now value }
    requires room { length out.old + ROOM ≤ OUTPUT_BYTES }
    ensures { (graph : Graph) (what : Value) → MainShows main.now graph →
        StandsFor main.now graph what value →
        out.new ≡ out.old ++ line (value_text graph.objects what) }
{
    let mut buffer = Buffer::new();
    match value {
        Held::Unbound | Held::Undefined => out.put(b"undefined"),
        Held::Int(v) => out.put(buffer.format(v).as_bytes()),
        Held::Ref(at) => {
            let header = main.header(at);
            out.put(noun(header.shape));
            out.put(buffer.format(header.object).as_bytes());
        }
    }
    out.put(b"\n");
}

/// What the text of an object begins with, by the shape of its cell.
fn noun(shape: u32) -> &'static [u8]
    ensures noun { result.now ≡ noun_by_shape shape }
    ensures short { length result.now ≤ 7 }
{
    match shape {
        shape::LIST => b"list ",
        shape::WEAK => b"weak ",
        _ => b"object ",
    }
}
