//! The words that are lent to workers, and the cells that stand there.
ghost use Rattle.std.specs.Prelude.{◌≡◌, ◌+◌, ◌≤◌, ℕ, length, IfSome, IsNone};
ghost use Rattle.page_space.specs.Extents.{eden_start};
ghost use Rattle.tagged_word.specs.Cells.{scavenge_offsets};
ghost use Rattle.eden_copies.specs.Eden.{size_in, slots_in, RefersToEden, StandsInEden};
ghost use Rattle.eden_copies.specs.Sides.{is_of_survivor};

use cell_layout::{Cell, cell_at};
use page_space::PAGE_WORDS;
use shared_table::OwnWords;
use std::marker::Model;
use tagged_word::Word;
use word_store::Reads;

/// The words, to read cells off.
#[derive(Drop)]
struct LentWords<'w> {
    words: &'w OwnWords,
}

impl<'w> Model for LentWords<'w> {
    ghost use Rattle.std.specs.Prelude.{ℕ, ◌<◌, ◌^◌, List, length};

    ghost Value = { List ℕ };

    ghost view = { λ place. place.words.now.words };

    ghost invariant = { λ place. length place.words.now.words < 2 ^ 32 };
}

impl<'w> LentWords<'w> {
    /// These words.
    fn new(words: &'w OwnWords) -> LentWords<'w>
        requires { length words.now.words ≤ u32.MAX }
        ensures { result ≡ words.now.words }
    {
        LentWords { words }
    }
}

impl<'w> Reads for LentWords<'w> {
    ghost words = { λ place. place };

    ghost IsSteady = { λ _. Unit {0} };

    ghost Rest = { λ _ _. Unit {0} };

    ghost rest_itself = { λ _. tt };

    ghost rest_again = { λ _ _ _ _ _. tt };

    ghost stays_steady = { λ _ _ _ _. tt };

    fn count(&self) -> u32 {
        self.words.count()
    }

    fn load(&mut self, a: u32) -> u64 {
        // There is a word for each address before the marks.
        let _count = self.words.count();
        self.words.word(a)
    }
}

/// The cell that stands at an address of eden.
pub(crate) fn known_cell(words: &OwnWords, at: u32) -> Cell
    requires { StandsInEden words.now at }
    ensures size { result.size ≡ size_in words.now at }
    ensures slots { scavenge_offsets result.layout result.length ≡ slots_in words.now at }
{
    // There are no more words than addresses.
    let _count = words.count();
    let mut lent = LentWords::new(words);
    let Ok(cell) = cell_at(&mut lent, &words.regions(), at) else {
        unreachable!();
    };
    cell
}

/// The first address of eden.
#[inline(always)]
pub(crate) fn eden_at(words: &OwnWords) -> u32
    ensures at { result ≡ eden_start words.now.space }
    ensures ends { result + words.now.space.sizes.young ≤ u32.MAX }
{
    let regions = words.regions();
    // The sizes are within their limits.
    regions.sizes_fit();
    PAGE_WORDS * regions.sizes().pages
}

/// The address of eden that a word refers to, if it refers to one.
#[inline(always)]
pub(crate) fn eden_cell(words: &OwnWords, word: u64) -> Option<u32>
    ensures some { IfSome result (λ cell. RefersToEden words.now word cell) }
    ensures none { IsNone result → (cell : ℕ) → RefersToEden words.now word cell → ⊥ }
{
    let at = Word(word).address()?;
    let eden = eden_at(words);
    if eden <= at && at < eden + words.regions().sizes().young {
        Some(at)
    } else {
        None
    }
}

/// Whether a word refers to a survivor.
#[inline(always)]
pub(crate) fn refers_to_survivor(words: &OwnWords, word: u64) -> bool
    ensures { result ≡ is_of_survivor words.now word }
{
    let segments = eden_at(words) + words.regions().sizes().young;
    match Word(word).address() {
        Some(at) => segments <= at,
        None => false,
    }
}
