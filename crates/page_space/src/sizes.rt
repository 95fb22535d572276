//! The sizes of a heap.
ghost use Rattle.std.specs.Prelude.{◌≡◌, ◌↔◌, IsTrue};
ghost use Rattle.page_space.specs.Sizes.{page_words, pages_most, young_least, young_most};
ghost use Rattle.page_space.specs.Sizes.{helpers_most, variables_most};

use tagged_word::cell;

/// The sizes of a heap and its number of helpers.
#[derive(Clone, Copy, Debug, PartialEq, Eq)]
pub struct Sizes {
    /// Pages of the old generation: 1 to 512.
    pub pages: u32,
    /// Words of the young generation: 64 to 65,536.
    pub young: u32,
    /// Threads that help to collect: 0 to 7.
    pub helpers: u32,
}

/// The words of a page: a cell may have as many.
pub const PAGE_WORDS: u32 = cell::WORDS_MOST;

/// The most pages.
pub const PAGES_MOST: u32 = 512;

/// The fewest words of the young generation.
pub const YOUNG_LEAST: u32 = 64;

/// The most words of the young generation.
pub const YOUNG_MOST: u32 = 65_536;

/// The most helpers.
pub const HELPERS_MOST: u32 = 7;

/// The most variables of a script.
pub const VARIABLES_MOST: u32 = 1_024;

/// The numbers are those of `specs/Sizes.antt`.
pub fn limits_are_those_of_sizes()
    ensures page { PAGE_WORDS ≡ page_words }
    ensures pages { PAGES_MOST ≡ pages_most }
    ensures young_is_least { YOUNG_LEAST ≡ young_least }
    ensures young { YOUNG_MOST ≡ young_most }
    ensures helpers { HELPERS_MOST ≡ helpers_most }
    ensures variables { VARIABLES_MOST ≡ variables_most }
{}

impl Sizes {
    ghost use Rattle.page_space.specs.Sizes.{AreWithin};

    /// Whether a heap may have these sizes, with so many variables.
    pub fn are_within(self, variables: u32) -> bool
        ensures { IsTrue result ↔ AreWithin self variables }
    {
        1 <= self.pages
            && self.pages <= PAGES_MOST
            && YOUNG_LEAST <= self.young
            && self.young <= YOUNG_MOST
            && self.helpers <= HELPERS_MOST
            && variables <= VARIABLES_MOST
    }
}
