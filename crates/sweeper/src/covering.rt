//! Making words free: a free cell over them, and a free run of the page in which they are.
ghost use Rattle.std.specs.Prelude.{◌≡◌, ◌-◌, ◌/◌, ◌<◌, ◌≤◌, length};
ghost use Rattle.page_space.specs.Extents.{marks_start};
ghost use Rattle.sweeper.specs.Sweeping.{Covers, IsCleared, IsRoomy, page_of};
ghost use Rattle.write_barrier.specs.MutatorState.{MayStore};

use page_space::{PAGE_WORDS, Run};
use write_barrier::Main;

/// No page has a free run any more.
pub(crate) fn clear_pages(main: &mut Main)
    requires { length main.old.free ≡ main.old.seat.space.sizes.pages }
    ensures { IsCleared main.old main.new }
{
    for page in 0..main.regions().sizes().pages {
        main.clear_free(page);
    }
}

/// Makes the words from an address up to another one free cell, and a free run where they are a page's.
pub(crate) fn cover(main: &mut Main, from: u32, to: u32)
    requires quiet { MayStore main.old }
    requires some { from < to }
    requires within { to ≤ marks_start main.old.seat.space }
    requires room { page_of from < main.old.seat.space.sizes.pages → IsRoomy main.old from to }
    ensures { Covers main.old main.new from to }
{
    let words = to - from;
    main.put_free_cell(from, words);
    let page = from / PAGE_WORDS;
    if page < main.regions().sizes().pages {
        main.add_free(page, Run { at: from, words });
    }
}
