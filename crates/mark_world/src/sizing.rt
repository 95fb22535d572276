//! How far a cell reaches, as far as marking asks for it.
ghost use Rattle.std.specs.Prelude.{◌≡◌};
ghost use Rattle.mark_world.specs.Naming.{known_size};
ghost use Rattle.mark_world.specs.Pages.{page_end};

use page_space::PAGE_WORDS;
use tagged_word::LayoutWord;

/// The size of a cell as far as marking asks for it: a table and a gap have no slots to visit, and are taken for empty.
#[inline(always)]
pub fn known_size(layout: LayoutWord, length: u64) -> Option<u32>
    ensures { result ≡ known_size layout length }
{
    if layout.kind.has_length() && !layout.kind.marks_by_length() {
        Some(0)
    } else {
        layout.size(length)
    }
}

/// The address behind the page that an address lies in.
#[inline(always)]
pub fn page_end(at: u32) -> u64
    ensures { result ≡ page_end at }
{
    let words = PAGE_WORDS as u64;
    words * (at as u64 / words + 1)
}
