//! The cell of a page that a word refers to.
ghost use Rattle.std.specs.Prelude.{◌≡◌};
ghost use Rattle.mark_world.specs.Pages.{target};

use tagged_word::Word;

/// The target of a word: the old address that it refers to, if it refers to one.
#[inline(always)]
pub fn target(word: Word, old: u32) -> Option<u32>
    ensures { result ≡ target old word.0 }
{
    let at = word.address()?;
    if at < old { Some(at) } else { None }
}
