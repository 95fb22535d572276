//! The ways through a tree of shapes: up to a prefix, and down along fields.
ghost use Rattle.std.specs.Prelude.{◌≤◌, [], ◌∷◌, length, IfSome, MatchOption};
ghost use Rattle.object_graph.specs.Paths.{prefix_of};
ghost use Rattle.shape_tree.specs.Shapes.{IsPathShape, IsShapeOf, shape_path};
ghost use Rattle.shape_tree.specs.Growth.{extended, IsMissing, StepsTo};

use crate::cached::cache_index;
use crate::transition::Transition;
use crate::tree::ShapeTree;
use object_graph::PathField;

/// How far fields lead from a shape before the next path is missing.
#[derive(Drop)]
pub(crate) struct Walk<'t> {
    /// The shape of the longest path that is there.
    pub(crate) shape: u32,
    /// The fields that are left.
    pub(crate) rest: &'t [PathField],
}

impl ShapeTree {
    ghost use Rattle.shape_tree.specs.Walks.{WalksTo};

    /// Where the step from a shape by this field leads, if it is cached. The shape may be any.
    #[inline(always)]
    pub fn cached_step(&self, shape: u32, field: PathField) -> Option<u32>
        ensures { IfSome result (StepsTo self.now shape field) }
    {
        let step = Transition {
            parent: shape,
            field,
        };
        let cached = self.cache[cache_index(step)];
        if cached.is_for(step) {
            Some(cached.shape)
        } else {
            None
        }
    }

    /// The shape of the path with this field more, if it is there.
    #[inline(always)]
    pub(crate) fn child(&self, shape: u32, field: PathField) -> Option<u32>
        requires { IsPathShape self.now shape }
        ensures { let path = extended (shape_path self.now shape) (field ∷ []) in
            MatchOption result (IsMissing self.now path) (IsShapeOf self.now path) }
    {
        match self.cached_step(shape, field) {
            Some(next) => Some(next),
            None => self.child_in_table(shape, field),
        }
    }

    /// The same by the table of transitions. It hashes, so it is kept out of line.
    #[inline(never)]
    fn child_in_table(&self, shape: u32, field: PathField) -> Option<u32>
        requires { IsPathShape self.now shape }
        ensures { let path = extended (shape_path self.now shape) (field ∷ []) in
            MatchOption result (IsMissing self.now path) (IsShapeOf self.now path) }
    {
        let step = Transition {
            parent: shape,
            field,
        };
        self.steps.get(&step).copied()
    }

    /// The shape of the first `count` fields of the path of a shape.
    pub(crate) fn ancestor(&self, shape: u32, count: u32) -> u32
        requires path { IsPathShape self.now shape }
        requires within { count ≤ length (shape_path self.now shape).fields }
        ensures { IsShapeOf self.now (prefix_of (shape_path self.now shape) count) result }
    {
        let mut above = shape;
        let mut left = self.fields(shape);
        while left > count {
            above = self.node(above).parent;
            left -= 1;
        }
        above
    }

    /// Goes from a shape along these fields as far as the paths are there. No path with a missing
    /// prefix is there, so the walk ends at the first that is missing.
    pub(crate) fn walk<'t>(&self, from: u32, tail: &'t [PathField]) -> Walk<'t>
        requires { IsPathShape self.now from }
        ensures { WalksTo self.now (extended (shape_path self.now from) tail.now) result }
    {
        self.paths_fit();
        let mut shape = from;
        let mut rest = tail;
        while let [field, later @ ..] = rest {
            let Some(next) = self.child(shape, *field) else {
                return Walk { shape, rest };
            };
            shape = next;
            rest = later;
        }
        Walk { shape, rest }
    }
}
