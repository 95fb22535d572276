//! The commands `alike` and `shape`, which write a line of the shapes of plain objects and leave
//! the heap as it is.
ghost use Rattle.std.specs.Prelude.{◌≡◌, ℕ, ◌+◌, ◌++◌, ◌≤◌, List, length, is_ok, if◌then◌else◌};
ghost use Rattle.heap_command.specs.Commands.{IsWithin};
ghost use Rattle.object_graph.specs.declared.object.Field.{Field};
ghost use Rattle.object_graph.specs.Paths.{path_of};
ghost use Rattle.object_graph.specs.Graphs.{Graph};
ghost use Rattle.object_graph.specs.Texts.{line, rep_text, shape_text};
ghost use Rattle.shape_tree.specs.Shapes.{IsPathShape, shape_path};
ghost use Rattle.script_text.specs.Limits.{name_bytes_most};
ghost use Rattle.write_barrier.specs.MutatorState.{MainShows};
ghost use Rattle.mutator.specs.CarriesOut.{Carries, field_numbers};
ghost use Rattle.mutator.specs.Written.{name_of, path_field_text};
ghost use Rattle.script_text.specs.Sound.{AreShort};

use crate::lookups::{bound, operands, plain};
use crate::output::{OUTPUT_BYTES, Output, ROOM};
use crate::printing::put_truth;
use crate::stop::Stop;
use heap_command::{Command, Operand};
use itoa::Buffer;
use script_text::Script;
use shape_tree::{PathField, Rep, ShapeTree};
use write_barrier::Main;

/// Writes `true` and a line feed where two plain objects have the same cap and the same fields in
/// order, but for the values, and else `false` and a line feed. The output has room for `ROOM`
/// bytes.
///
/// Stops with `unbound` or `notobject`.
#[inline(always)]
pub fn alike(main: &mut Main, x: u32, y: u32, out: &mut Output) -> Result<(), Stop>
    requires shown { (graph : Graph) × MainShows main.old graph }
    requires within { IsWithin main.old.seat.space.variables field_numbers (Command.Alike x y) }
    requires room { length out.old + ROOM ≤ OUTPUT_BYTES }
    ensures carried { (graph : Graph) (names : List (List ℕ)) → MainShows main.old graph →
        (text : List ℕ)
        × Carries names main.old main.new graph (Command.Alike x y) text result
        × (out.new ≡ (if is_ok result then out.old ++ text else out.old)) }
    ensures same { main.new ≡ main.old }
{
    let (first, second) = operands(main, Operand::Var(x), Operand::Var(y))?;
    let a = plain(main, first)?;
    let b = plain(main, second)?;
    // No path has two shapes, so two paths are one where their shapes agree.
    put_truth(a.shape == b.shape, out);
    Ok(())
}

/// Writes the cap and the fields of a plain object and a line feed, the fields by their names in
/// the script. The output has room for `ROOM` bytes.
///
/// Stops with `unbound` or `notobject`.
#[inline(always)]
pub fn shape(main: &mut Main, script: &Script<'_>, x: u32, out: &mut Output) -> Result<(), Stop>
    requires shown { (graph : Graph) × MainShows main.old graph }
    requires within { IsWithin main.old.seat.space.variables field_numbers (Command.Shape x) }
    requires short { AreShort script.now.fields }
    requires room { length out.old + ROOM ≤ OUTPUT_BYTES }
    ensures carried { (graph : Graph) → MainShows main.old graph →
        (text : List ℕ)
        × Carries script.now.fields main.old main.new graph (Command.Shape x) text result
        × (out.new ≡ (if is_ok result then out.old ++ text else out.old)) }
    ensures same { main.new ≡ main.old }
{
    let target = bound(main, x)?;
    let found = plain(main, target)?;
    put_shape(main.shapes(), script, found.shape, out);
    Ok(())
}

/// Writes the cap and the fields of the path of a shape, and a line feed.
fn put_shape(shapes: &ShapeTree, script: &Script<'_>, shape: u32, out: &mut Output)
    requires path { IsPathShape shapes.now shape }
    requires short { AreShort script.now.fields }
    requires room { length out.old + ROOM ≤ OUTPUT_BYTES }
    ensures { (cap : ℕ) (fields : List Field) → shape_path shapes.now shape ≡ path_of cap fields →
        out.new ≡ out.old ++ line (shape_text script.now.fields cap fields) }
{
    let mut buffer = Buffer::new();
    out.put(b"cap ");
    out.put(buffer.format(shapes.cap(shape)).as_bytes());
    for at in 0..shapes.fields(shape) {
        put_field(script, shapes.field(shape, at), out);
    }
    out.put(b"\n");
}

/// Writes a field: a space, its name, a colon and its representation.
fn put_field(script: &Script<'_>, field: PathField, out: &mut Output)
    requires short { AreShort script.now.fields }
    requires room { length out.old + 40 ≤ OUTPUT_BYTES }
    ensures text { out.new ≡ out.old ++ path_field_text script.now.fields field }
    ensures few { length out.new ≤ length out.old + 40 }
{
    out.put(b" ");
    out.put(name(script, field.name));
    out.put(b":");
    out.put(word(field.rep));
}

/// The name of a field, by its number; nothing where the script has none of this number.
fn name<'s>(script: &Script<'s>, number: u32) -> &'s [u8]
    requires { AreShort script.now.fields }
    ensures name { result.now ≡ name_of script.now.fields number }
    ensures short { length result.now ≤ name_bytes_most }
{
    if number < script.fields() {
        script.field(number)
    } else {
        b""
    }
}

/// The word of a representation.
fn word(rep: Rep) -> &'static [u8]
    ensures word { result.now ≡ rep_text rep }
    ensures short { length result.now ≤ 6 }
{
    match rep {
        Rep::Small => b"small",
        Rep::Wide => b"wide",
        Rep::Tagged => b"tagged",
    }
}
