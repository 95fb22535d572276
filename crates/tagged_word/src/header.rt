//! The first word of a cell: its shape and its object's number.
ghost use Rattle.std.specs.Prelude.{◌≡◌, ◌≢◌, ◌<◌, ◌↔◌, IfSome, IsNone};
ghost use Rattle.tagged_word.specs.Headers.{IsHeader, header_bits};
ghost use Rattle.tagged_word.specs.Readings.{header_in};

use crate::word::Word;

/// A cell's shape and the number of its object.
#[derive(Clone, Copy, Debug, PartialEq, Eq)]
pub struct Header {
    pub shape: u32,
    pub object: u32,
}

/// The first number that 16 bits are too few for. There are fewer shapes: `shape::COUNT`.
const SHAPE_LIMIT: u32 = 65536;

impl Header {
    /// The word that a cell with this header begins with.
    pub fn word(self) -> Word
        requires { self.shape < 65536 }
        ensures { result.0 ≡ header_bits self }
    {
        Word(self.object as u64 * 4_294_967_296 + (self.shape as u64 * 4 + 2))
    }

    /// The header that a word has the bits of; none for bits of no header.
    pub fn parse(word: Word) -> Option<Header>
        ensures value { result ≡ header_in word.0 }
        ensures parses { (header : Header) → IsHeader header → word.0 ≡ header_bits header →
            result ≡ Some header }
        ensures one { IfSome result (λ header. IsHeader header × (word.0 ≡ header_bits header)) }
        ensures none { IsNone result
            ↔ ((header : Header) → IsHeader header → word.0 ≢ header_bits header) }
    {
        let low = (word.0 % 4_294_967_296) as u32;
        let header = Header {
            shape: low / 4,
            object: (word.0 / 4_294_967_296) as u32,
        };
        if low % 4 == 2 && header.shape < SHAPE_LIMIT {
            Some(header)
        } else {
            None
        }
    }
}
