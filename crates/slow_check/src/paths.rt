//! Whether shapes have the paths of a graph.
ghost use Rattle.std.specs.Prelude.{◌≡◌, ◌<◌, ◌↔◌, IsTrue, length, map};
ghost use Rattle.object_graph.specs.Paths.{path_of};
ghost use Rattle.shape_tree.specs.Shapes.{IsPathShape, shape_path};
ghost use Rattle.slow_check.specs.PathFields.{known_field, IsFieldAt};

use ideal_graph::{Field, Path, PathField};
use shape_tree::{Rep, ShapeTree};
use tagged_word::shape;

/// Whether a tree of shapes has these paths, in this order.
pub(crate) fn has_paths(shapes: &ShapeTree, paths: &[Path]) -> bool
    ensures { IsTrue result ↔ (shapes.now ≡ paths.now) }
{
    let count = shapes.paths();
    if count as usize != paths.len() {
        return false;
    }
    for at in 0..count {
        if !is_path(shapes, shape::PATHS + at, &paths[at as usize]) {
            return false;
        }
    }
    true
}

/// Whether two trees of shapes have the same paths, in the same order.
pub(crate) fn has_same_paths(shapes: &ShapeTree, others: &ShapeTree) -> bool
    ensures { IsTrue result ↔ (shapes.now ≡ others.now) }
{
    let count = shapes.paths();
    if count != others.paths() {
        return false;
    }
    for at in 0..count {
        if !has_same_path(shapes, others, shape::PATHS + at) {
            return false;
        }
    }
    true
}

/// Whether the path of a shape is the same in two trees.
fn has_same_path(shapes: &ShapeTree, others: &ShapeTree, shape: u32) -> bool
    requires path { IsPathShape shapes.now shape }
    requires other { IsPathShape others.now shape }
    ensures { IsTrue result ↔ (shape_path shapes.now shape ≡ shape_path others.now shape) }
{
    if shapes.cap(shape) != others.cap(shape) {
        return false;
    }
    has_same_fields(shapes, others, shape)
}

/// Whether the path of a shape has the same fields in two trees, in the same order.
fn has_same_fields(shapes: &ShapeTree, others: &ShapeTree, shape: u32) -> bool
    requires path { IsPathShape shapes.now shape }
    requires other { IsPathShape others.now shape }
    ensures { IsTrue result
        ↔ ((shape_path shapes.now shape).fields ≡ (shape_path others.now shape).fields) }
{
    let count = shapes.fields(shape);
    if count != others.fields(shape) {
        return false;
    }
    for at in 0..count {
        if !is_field_at(shapes, shape, at, others.field(shape, at)) {
            return false;
        }
    }
    true
}

/// Whether the path of a shape is this one.
fn is_path(shapes: &ShapeTree, shape: u32, path: &Path) -> bool
    requires { IsPathShape shapes.now shape }
    ensures { IsTrue result ↔ (shape_path shapes.now shape ≡ path.now) }
{
    if shapes.cap(shape) != path.cap {
        return false;
    }
    has_fields(shapes, shape, path.fields.as_slice())
}

/// Whether the path of a shape has these fields, in this order.
fn has_fields(shapes: &ShapeTree, shape: u32, fields: &[PathField]) -> bool
    requires { IsPathShape shapes.now shape }
    ensures { IsTrue result ↔ ((shape_path shapes.now shape).fields ≡ fields.now) }
{
    let count = shapes.fields(shape);
    if count as usize != fields.len() {
        return false;
    }
    for at in 0..count {
        if !is_field_at(shapes, shape, at, fields[at as usize]) {
            return false;
        }
    }
    true
}

/// Whether the path of a shape is that of a plain object with this cap and these fields.
pub(crate) fn is_path_of(shapes: &ShapeTree, shape: u32, cap: u32, fields: &[Field]) -> bool
    requires { IsPathShape shapes.now shape }
    ensures { IsTrue result ↔ (shape_path shapes.now shape ≡ path_of cap fields.now) }
{
    if shapes.cap(shape) != cap {
        return false;
    }
    has_fields_of(shapes, shape, fields)
}

/// Whether the fields of the path of a shape are those of an object, by their names and
/// representations.
fn has_fields_of(shapes: &ShapeTree, shape: u32, fields: &[Field]) -> bool
    requires { IsPathShape shapes.now shape }
    ensures { IsTrue result
        ↔ ((shape_path shapes.now shape).fields ≡ map known_field fields.now) }
{
    let count = shapes.fields(shape);
    if count as usize != fields.len() {
        return false;
    }
    for at in 0..count {
        if !is_field_at(shapes, shape, at, known(fields[at as usize])) {
            return false;
        }
    }
    true
}

/// A field as a path knows it.
fn known(field: Field) -> PathField
    ensures { result ≡ known_field field }
{
    PathField {
        name: field.name,
        rep: field.rep,
    }
}

/// Whether a field stands at a place of the path of a shape.
fn is_field_at(shapes: &ShapeTree, shape: u32, at: u32, field: PathField) -> bool
    requires path { IsPathShape shapes.now shape }
    requires there { at < length (shape_path shapes.now shape).fields }
    ensures { IsTrue result ↔ IsFieldAt (shape_path shapes.now shape) at field }
{
    let other = shapes.field(shape, at);
    if other.name != field.name {
        return false;
    }
    is_same(other.rep, field.rep)
}

/// Whether two representations are one.
fn is_same(rep: Rep, other: Rep) -> bool
    ensures { IsTrue result ↔ (rep ≡ other) }
{
    match rep {
        Rep::Small => matches!(other, Rep::Small),
        Rep::Wide => matches!(other, Rep::Wide),
        Rep::Tagged => matches!(other, Rep::Tagged),
    }
}
