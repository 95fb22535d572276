//! Words of pages that go from the own ones to the shared table.
ghost use Rattle.std.specs.Prelude.{◌≡◌, ◌<◌, ◌≤◌, ◌⊎◌};
ghost use Rattle.page_space.specs.Extents.{marks_start};
ghost use Rattle.mark_laws.specs.Types.{Spot};
ghost use Rattle.mark_world.specs.declared.event.Event.TheVariants as event;
ghost use Rattle.shared_table.specs.declared.phase.Phase.TheVariants.{Mark};
ghost use Rattle.shared_table.specs.Changes.{MayDo};
ghost use Rattle.shared_table.specs.Spots.{with_spot};
ghost use Rattle.heap_table.specs.Sharing.{Agrees, AgreesOutside, with_pages};

use shared_table::{MainSide, OwnWords};

/// Puts a word of a page in the shared table.
#[cold]
#[inline(never)]
pub(crate) fn share(side: &mut MainSide, a: u32, word: u64)
    requires within { a < side.old.main.old }
    requires may { let main = side.old.main in
        main.phase ≡ Mark → MayDo main (event.StoreHeader a word) ⊎ MayDo main (event.StoreOwned a word) }
    ensures { side.new ≡ record side.old { main = with_spot side.old.main (Spot.Heap a) word } }
{
    side.store_header(a, word);
}

/// Puts the own words from an address on up to another in the shared table, as far as they are of pages.
#[cold]
#[inline(never)]
pub(crate) fn share_stretch(side: &mut MainSide, own: &OwnWords, from: u32, to: u32)
    requires idle { side.old.main.phase ≡ Mark → ⊥ }
    requires within { to ≤ marks_start own.now.space }
    requires outside { AgreesOutside own.now from to side.old.main }
    ensures agrees { Agrees own.now side.new.main }
    ensures rest { side.new ≡ with_pages side.old side.new.main }
{
    // There is a word for each address before the marks.
    own.words_fit();
    for a in from..to.min(side.counts().old) {
        side.store_owned(a, own.word(a));
    }
}
