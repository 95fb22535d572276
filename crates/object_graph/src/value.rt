//! Values, and how the place of a value may hold it.
ghost use Rattle.std.specs.Prelude.{◌≡◌};
ghost use Rattle.object_graph.specs.Values.{rep_of, join};

use tagged_word::is_small;

/// What a variable, a field, an element or an entry holds.
#[derive(Clone, Copy, Debug, PartialEq, Eq)]
pub enum Value {
    Int(i64),
    Undefined,
    /// The object of this number.
    Ref(u32),
}

/// The representation of a field: which values its place can hold. Each holds what those before it do.
#[derive(Clone, Copy, Debug, PartialEq, Eq, Hash)]
pub enum Rep {
    /// Integers from -1073741824 to 1073741823.
    Small,
    /// Integers of 64 bits.
    Wide,
    /// Every value.
    Tagged,
}

impl Rep {
    /// The narrowest representation that holds the value.
    pub fn of(value: Value) -> Rep
        ensures { result ≡ rep_of value }
    {
        match value {
            Value::Int(v) if is_small(v) => Rep::Small,
            Value::Int(_) => Rep::Wide,
            Value::Undefined | Value::Ref(_) => Rep::Tagged,
        }
    }

    /// The narrowest representation that holds what either of the two holds.
    pub fn join(self, other: Rep) -> Rep
        ensures { result ≡ join self other }
    {
        match (self, other) {
            (Rep::Tagged, _) | (_, Rep::Tagged) => Rep::Tagged,
            (Rep::Wide, _) | (_, Rep::Wide) => Rep::Wide,
            (Rep::Small, Rep::Small) => Rep::Small,
        }
    }
}
