//! The weak table beside a weak map.
ghost use Rattle.std.specs.Prelude.{◌≡◌, ◌↔◌, IsTrue, MatchOption};
ghost use Rattle.heap_model.specs.Images.{image_heap};
ghost use Rattle.heap_model.specs.Slots.{undefined_word};
ghost use Rattle.heap_model.specs.Wholeness.{HasRows};
ghost use Rattle.image_walk.specs.Words.{HasWords};
ghost use Rattle.image_walk.specs.TablePairs.{IsTableAs};
ghost use Rattle.slow_check.specs.NoTables.{HasNoTable};

use heap_model::HeapImage;
use image_walk::{Span, is_power_of_two, slots_beside, sort_of};
use tagged_word::{Kind, Word, odd};

/// The slots of the weak table to which a word refers, which has a power of two pairs; no slots
/// where the word says that there is none.
pub(crate) fn table_beside(image: &HeapImage, word: u64) -> Option<Span>
    requires sized { HasWords (image_heap image.now) }
    requires rows { HasRows (image_heap image.now) }
    ensures { let heap = image_heap image.now in MatchOption result (HasNoTable heap word)
        (λ table. IsTableAs heap word table) }
{
    match slots_beside(image, word, sort_of(image, word), Kind::Table) {
        Some(table) => {
            if is_undefined(word) {
                return Some(table);
            }
            if is_power_of_two((table.end - table.from) / 2) {
                Some(table)
            } else {
                None
            }
        }
        None => None,
    }
}

/// Whether a word is `undefined`.
pub(crate) fn is_undefined(word: u64) -> bool
    ensures { IsTrue result ↔ (word ≡ undefined_word) }
{
    word == Word::odd(odd::UNDEFINED).0
}
