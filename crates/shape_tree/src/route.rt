//! Routes: which fields lead from a shape that is there to a path that is wanted.
ghost use Rattle.std.specs.Prelude.{◌≡◌, ◌<◌, ◌≤◌, length};
ghost use Rattle.object_graph.specs.Invariants.{fields_most};
ghost use Rattle.shape_tree.specs.Shapes.{changed_fields};

use crate::tree::FIELDS_MOST;
use object_graph::{PathField, Rep};
use std::marker::Model;

/// At most 64 fields, on the stack.
#[derive(Drop)]
pub(crate) struct Tail {
    fields: [PathField; FIELDS_MOST],
    count: usize,
}

impl Model for Tail {
    ghost use Rattle.std.specs.Prelude.{List, take, ◌≤◌};
    ghost use Rattle.object_graph.specs.declared.path.PathField.{PathField};

    ghost Value = { List PathField };

    ghost view = { λ t. take t.count t.fields };

    ghost invariant = { λ t. t.count ≤ 64 };
}

impl Tail {
    /// A copy of these fields, at most 64.
    pub(crate) fn of(given: &[PathField]) -> Tail
        requires { length given.now ≤ fields_most }
        ensures { result ≡ given.now }
    {
        let filler = PathField {
            name: 0,
            rep: Rep::Small,
        };
        let mut fields = [filler; FIELDS_MOST];
        let count = given.len();
        fields[..count].copy_from_slice(given);
        Tail { fields, count }
    }

    /// Gives the first field another representation.
    pub(crate) fn set_rep(&mut self, rep: Rep)
        requires { 0 < length self.old }
        ensures { self.new ≡ changed_fields self.old 0 rep }
    {
        self.fields[0].rep = rep;
    }

    pub(crate) fn as_slice(&self) -> &[PathField]
        ensures { result.now ≡ self.now }
    {
        &self.fields[..self.count]
    }
}

/// A shape that is there, and the fields from it to the path that is wanted.
#[derive(Drop)]
pub(crate) struct Route {
    pub(crate) from: u32,
    pub(crate) tail: Tail,
}
