//! What words read as at an address. The definitions are functions of the words, so that a rule may
//! cite them; what each word is stands in `word.rt`, `header.rt` and `layout.rt`.
ghost use Rattle.tagged_word.specs.Readings.{HeadersAreReadBack, LayoutsAreReadBack};
ghost use Rattle.tagged_word.specs.Readings.{KindsAreReadBack, ReferencesAreReadBack};
ghost use Rattle.tagged_word.specs.Readings.{CellsAreReadBack};

use crate::header::Header;
use crate::layout::LayoutWord;

/// What the words at an address read as: the cell there, but for its address.
#[derive(Clone, Copy, Debug, PartialEq, Eq)]
pub struct Reading {
    /// The first word of the cell.
    pub header: Header,
    /// The layout of its shape.
    pub layout: LayoutWord,
    /// Its length, in slots, pairs or words as its kind says; 0 for a kind that has none.
    pub length: u64,
    /// Its size in words.
    pub size: u32,
}

/// The functions of words read exactly what stands there: each gives a value where the words are
/// that value's, and none elsewhere.
pub fn laws_of_readings()
    ensures header { HeadersAreReadBack }
    ensures kind { KindsAreReadBack }
    ensures layout { LayoutsAreReadBack }
    ensures reference { ReferencesAreReadBack }
    ensures cell { CellsAreReadBack }
{}
