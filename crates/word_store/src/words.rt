//! What a place of words promises. The places themselves stand in `vec_words` and `slice_words`.
ghost use Rattle.std.specs.Prelude.{◌≡◌, ◌<◌, ℕ, List, length, slice_get, slice_set, Some};

/// Words that are read by their addresses.
///
/// The model is a list of words, `words`, and beside it whatever else the implementor has. A read
/// may change that, as where reads are counted. It leaves the words, and `Rest` says what else it
/// leaves: callers learn that instead of an equation between the old implementor and the new.
pub trait Reads {
    // The words, by their addresses.
    ghost words: { Self → List ℕ };
    // Whether the words may be read and written now: nobody else changes them.
    ghost IsSteady: { Self → Type 0 };
    // What stands beside the words has stayed from the first to the second.
    ghost Rest: { Self → Self → Type 0 };

    /// How many words there are.
    fn count(&self) -> u32
        ensures { result ≡ length (words self.now) };

    /// The word at an address.
    fn load(&mut self, a: u32) -> u64
        requires within { a < length (words self.old) }
        requires steady { IsSteady self.old }
        ensures loaded { slice_get (words self.old) a ≡ Some result }
        ensures kept { words self.new ≡ words self.old }
        ensures rest { Rest self.old self.new };

    // Nothing has happened.
    ghost rest_itself: { (s : Self) → Rest s s };
    // One thing has happened after another.
    ghost rest_again: { (a b c : Self) → Rest a b → Rest b c → Rest a c };
    // Words that may be read may be read again.
    ghost stays_steady: { (a b : Self) → Rest a b → IsSteady a → IsSteady b };
}

/// Words that are written too.
pub trait Words: Reads {
    /// Puts a word at an address, in place of the one that stands there. No other word changes.
    fn put(&mut self, a: u32, word: u64)
        requires within { a < length (Self.words self.old) }
        requires steady { Self.IsSteady self.old }
        ensures put { Self.words self.new ≡ slice_set (Self.words self.old) a word }
        ensures rest { Self.Rest self.old self.new };
}
