//! What a variable holds.

/// What the two root words of a variable stand for. An integer needs no cell, whatever its size.
#[derive(Clone, Copy, Debug, PartialEq, Eq)]
pub enum Held {
    /// The variable is bound to nothing.
    Unbound,
    /// `undefined`.
    Undefined,
    /// An integer.
    Int(i64),
    /// The object whose cell stands at this address.
    Ref(u32),
}
