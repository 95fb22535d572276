//! Field paths: the ways in which plain objects came to their fields.
ghost use Rattle.std.specs.Prelude.{◌≡◌};

use crate::value::Rep;
use std::marker::Model;

/// A field as a path knows it.
#[derive(Clone, Copy, Debug, PartialEq, Eq, Hash)]
pub struct PathField {
    /// The number of the field's name.
    pub name: u32,
    pub rep: Rep,
}

/// The fields of a path, in order.
#[derive(Debug, Drop)]
pub struct PathFields {
    fields: Vec<PathField>,
}

impl Model for PathFields {
    ghost use Rattle.std.specs.Prelude.{List};
    ghost use Rattle.object_graph.specs.declared.path.PathField.{PathField};

    ghost Value = { List PathField };

    ghost view = { λ f. f.fields.items };
}

impl PathFields {
    /// These fields. It takes no memory.
    pub fn from_vec(fields: Vec<PathField>) -> PathFields
        ensures { result ≡ fields.items }
    {
        PathFields { fields }
    }

    pub fn as_slice(&self) -> &[PathField]
        ensures { result.now ≡ self.now }
    {
        &self.fields
    }
}

/// The cap of an object, and the names and representations of its fields in order.
#[derive(Debug, Drop)]
pub struct Path {
    pub cap: u32,
    pub fields: PathFields,
}
