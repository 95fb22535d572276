//! Transitions: the steps from the shape of a path to that of the path with a field more.
use object_graph::PathField;

/// A field is added behind the path of a shape.
#[derive(Clone, Copy, PartialEq, Eq, Hash)]
pub(crate) struct Transition {
    pub(crate) parent: u32,
    pub(crate) field: PathField,
}

/// Where a step leads.
#[derive(Clone, Copy)]
pub enum Step {
    /// To a path that is there: its shape.
    Found(u32),
    /// To a path that is missing. The paths before it are there.
    Missing,
}
