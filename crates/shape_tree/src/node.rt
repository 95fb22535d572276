//! Nodes: what a tree of shapes keeps of each path beside its fields.
use tagged_word::LayoutWord;

/// What is kept of one path.
#[derive(Clone, Copy)]
pub(crate) struct Node {
    pub(crate) cap: u32,
    /// Where the path's fields begin.
    pub(crate) start: u32,
    /// How many fields the path has.
    pub(crate) count: u32,
    /// The shape of the path without its last field; 0 where it has no field.
    pub(crate) parent: u32,
    pub(crate) layout: LayoutWord,
}
