//! The slots of the store or weak table beside an object.
ghost use Rattle.std.specs.Prelude.{MatchOption, IfSome};
ghost use Rattle.heap_model.specs.Images.{image_heap};
ghost use Rattle.image_walk.specs.Sorts.{IsSort};
ghost use Rattle.image_walk.specs.Words.{HasWords};
ghost use Rattle.image_walk.specs.Spans.{IsStoreKind, SpansStore, HoldsNoStore, IsBeside};

use crate::slots::Referent;
use crate::spans::{Span, behind_head};
use heap_model::HeapImage;
use tagged_word::Kind;
use tagged_word::cell::STORE_HEAD;

/// The slots of the store or weak table of the kind to which a word refers, by what the word stands for; no slots where
/// the word says that there is none.
pub fn slots_beside(image: &HeapImage, word: u64, referent: Referent, kind: Kind) -> Option<Span>
    requires sized { HasWords (image_heap image.now) }
    requires stands { IsSort (image_heap image.now) word referent }
    requires of_stores { IsStoreKind kind }
    ensures spans { let heap = image_heap image.now in MatchOption result (HoldsNoStore heap kind word)
        (λ span. SpansStore heap kind word span) }
    ensures beside { IfSome result (λ span. IsBeside (image_heap image.now) kind word span) }
{
    match referent {
        Referent::Undefined => Some(Span { from: 0, end: 0 }),
        Referent::Other(cell) => {
            if cell.layout.kind == kind {
                Some(behind_head(image, cell, STORE_HEAD))
            } else {
                None
            }
        }
        _ => None,
    }
}
