//! Laws of the words that show values.
ghost use Rattle.write_barrier.specs.ValueLaws.{ShownValuesAreHeld};

/// A word that shows a value has a class, and what the class stands for shows the value to a
/// variable: so the answer of `Main::value_of_word` may be held by one. Where the word is a
/// reference, both words at its address are before the marks.
pub fn laws_of_values()
    ensures { ShownValuesAreHeld }
{}
