//! The value that a field is to have.
ghost use Rattle.std.specs.Prelude.{◌≡◌};
ghost use Rattle.shape_change.specs.FieldValues.{given_of};

use handle_roots::Given;
use tagged_word::Word;

/// The value that a field is to have.
#[derive(Clone, Copy)]
pub enum FieldValue {
    /// A small integer, by its word. Each slot takes it as it is but that of a wide field, so the call for one is
    /// compiled with nothing that asks.
    Small(Word),
    /// Any value.
    Any(Given),
}

impl FieldValue {
    /// The value, by its word where a slot has one for it.
    #[inline(always)]
    pub(crate) fn given(self) -> Given
        ensures { result ≡ given_of self }
    {
        match self {
            FieldValue::Small(word) => Given::Word(word),
            FieldValue::Any(given) => given,
        }
    }
}
