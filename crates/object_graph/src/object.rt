//! Objects: what one of each kind consists of.
ghost use Rattle.std.specs.Prelude.{◌≡◌};

use crate::value::{Rep, Value};
use std::marker::Model;

/// A field of a plain object.
#[derive(Clone, Copy, Debug, PartialEq, Eq)]
pub struct Field {
    /// The number of the field's name.
    pub name: u32,
    pub rep: Rep,
    pub value: Value,
}

/// An entry of a weak map: a value that is kept while the map and the key are reachable.
#[derive(Clone, Copy, Debug, PartialEq, Eq)]
pub struct Entry {
    /// The number of the key's object.
    pub key: u32,
    pub value: Value,
}

/// The fields of a plain object, in the order in which they were added.
#[derive(Debug, Drop)]
pub struct Fields {
    fields: Vec<Field>,
}

impl Model for Fields {
    ghost use Rattle.std.specs.Prelude.{List};
    ghost use Rattle.object_graph.specs.declared.object.Field.{Field};

    ghost Value = { List Field };

    ghost view = { λ f. f.fields.items };
}

impl Fields {
    /// These fields. It takes no memory.
    pub fn from_vec(fields: Vec<Field>) -> Fields
        ensures { result ≡ fields.items }
    {
        Fields { fields }
    }

    pub fn as_slice(&self) -> &[Field]
        ensures { result.now ≡ self.now }
    {
        &self.fields
    }
}

/// The elements of a list, in order.
#[derive(Debug, Drop)]
pub struct Elements {
    elements: Vec<Value>,
}

impl Model for Elements {
    ghost use Rattle.std.specs.Prelude.{List};
    ghost use Rattle.object_graph.specs.declared.value.Value.{Value as Held};

    ghost Value = { List Held };

    ghost view = { λ e. e.elements.items };
}

impl Elements {
    /// These elements. It takes no memory.
    pub fn from_vec(elements: Vec<Value>) -> Elements
        ensures { result ≡ elements.items }
    {
        Elements { elements }
    }

    pub fn as_slice(&self) -> &[Value]
        ensures { result.now ≡ self.now }
    {
        &self.elements
    }
}

/// The entries of a weak map, in the order in which their keys came.
#[derive(Debug, Drop)]
pub struct Entries {
    entries: Vec<Entry>,
}

impl Model for Entries {
    ghost use Rattle.std.specs.Prelude.{List};
    ghost use Rattle.object_graph.specs.declared.object.Entry.{Entry};

    ghost Value = { List Entry };

    ghost view = { λ e. e.entries.items };
}

impl Entries {
    /// These entries. It takes no memory.
    pub fn from_vec(entries: Vec<Entry>) -> Entries
        ensures { result ≡ entries.items }
    {
        Entries { entries }
    }

    pub fn as_slice(&self) -> &[Entry]
        ensures { result.now ≡ self.now }
    {
        &self.entries
    }
}

/// An object, by its kind.
#[derive(Debug, Drop)]
pub enum Object {
    /// It has so many slots of its own, a prototype or none, by its number, and these fields.
    Plain {
        cap: u32,
        proto: Option<u32>,
        fields: Fields,
    },
    /// A list of these elements.
    List {
        elements: Elements,
    },
    /// A weak map of these entries.
    Weak {
        entries: Entries,
    },
}
