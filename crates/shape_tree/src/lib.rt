//! The tree of shapes: the hidden classes of plain objects, a shape for each field path.
//!
//! Model: the list of paths in the order in which they were made; shape `s` is path `s - 8`.
//! Invariant: the list is that of a graph (`AreShapes` of `specs/Shapes.antt`): the nine empty
//! paths first, none twice, with each its prefixes. What the tree holds of each path and of each
//! step is `IsTree` of `specs/Trees.antt`. Three caches are kept for speed: of transitions, of
//! alterations, and of names that were looked up. Each of their entries is tied there to the paths.
#![tactic(auto)]

mod alterations;
mod cached;
mod changing;
mod full;
mod growing;
mod laws;
mod located;
mod look_ups;
mod node;
mod queries;
mod route;
mod transition;
mod tree;
mod walking;

pub use full::ShapesFull;
pub use located::{CachedSlot, Located};
pub use object_graph::{PathField, Rep};
pub use transition::Step;
pub use tree::ShapeTree;
