//! One cell is shaded, and listed where it was white.
ghost use Rattle.std.specs.Prelude.{◌≡◌, ◌<◌, Contains};
ghost use Rattle.page_space.specs.Extents.{eden_start};
ghost use Rattle.core_parts.specs.Lists.{left};
ghost use Rattle.mark_world.specs.Pages.{OfTarget};
ghost use Rattle.shared_table.specs.declared.phase.Phase.TheVariants.{Mark};
ghost use Rattle.heap_table.specs.Overviews.{cycle_in, overview};
ghost use Rattle.mark_barrier.specs.CycleSteps.{sure_of, sure_of_target};
ghost use Rattle.mark_barrier.specs.Paid.{AreNoMore, IsColoured, ListsGrey, StepsTo, without_target};

use crate::grey_cells::GreyCells;
use heap_table::{Colour, MainSeat};
use mark_world::target;
use page_space::{PAGE_WORDS, Regions};
use tagged_word::Word;

/// The address behind the pages.
#[inline(always)]
pub(crate) fn pages_end(regions: Regions) -> u32
    ensures { result ≡ eden_start regions }
{
    regions.sizes_fit();
    regions.sizes().pages * PAGE_WORDS
}

/// Shades a cell of a page, which is owed no more then, and lists it where it was white.
#[inline(always)]
pub(crate) fn shade_cell(grey: &mut GreyCells, seat: &mut MainSeat, at: u32)
    requires mark { seat.old.phase ≡ Mark }
    requires lists { ListsGrey seat.old grey.old }
    requires within { at < eden_start seat.old.space }
    requires born { Contains (overview seat.old).view.born at }
    ensures lists { ListsGrey seat.new grey.new }
    ensures passed { grey.new.passed ≡ grey.old.passed }
    ensures owed { (overview seat.new).view.owed ≡ left (overview seat.old).view.owed at }
    ensures steps { StepsTo seat.old seat.new seat.old.table (sure_of (cycle_in seat.old) at) }
    ensures coloured { IsColoured seat.new at }
    ensures no_more { AreNoMore seat.old grey.old seat.new grey.new }
{
    seat.colours_fit();
    match seat.shade(at) {
        Colour::White => grey.list.add(at),
        _ => {}
    }
}

/// Shades the target of a word, if it has one in a page. It is owed no more then.
#[inline(always)]
pub(crate) fn shade_target(grey: &mut GreyCells, seat: &mut MainSeat, word: Word)
    requires mark { seat.old.phase ≡ Mark }
    requires lists { ListsGrey seat.old grey.old }
    requires born { OfTarget (eden_start seat.old.space) word.0 (Contains (overview seat.old).view.born) }
    ensures lists { ListsGrey seat.new grey.new }
    ensures passed { grey.new.passed ≡ grey.old.passed }
    ensures owed { let old = eden_start seat.old.space in
        (overview seat.new).view.owed ≡ without_target old (overview seat.old).view.owed word.0 }
    ensures steps { let cycle = sure_of_target (eden_start seat.old.space) (cycle_in seat.old) word.0 in
        StepsTo seat.old seat.new seat.old.table cycle }
    ensures coloured { OfTarget (eden_start seat.old.space) word.0 (IsColoured seat.new) }
    ensures no_more { AreNoMore seat.old grey.old seat.new grey.new }
{
    seat.colours_fit();
    if let Some(at) = target(word, pages_end(seat.regions())) {
        shade_cell(grey, seat, at);
    }
}
