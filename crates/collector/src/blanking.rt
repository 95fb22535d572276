//! The words of a heap become those of an image of it, where they stand.
ghost use Rattle.std.specs.Prelude.{◌≡◌};
ghost use Rattle.write_barrier.specs.Seats.{heap_words};
ghost use Rattle.heap_model.specs.RegionRows.{StandsBetween};
ghost use Rattle.heap_model.specs.Wholeness.{HasRows, Whole};
ghost use Rattle.write_barrier.specs.MutatorState.{MayStore, heap_of, with_table};
ghost use Rattle.collector.specs.Images.{AreWordsOf};
ghost use Rattle.collector.specs.Filling.{BlanksBehind};

use heap_walk::row_end;
use page_space::Region;
use write_barrier::Main;

/// Makes the words after the used row of a region 0. The region stands between two addresses.
fn blank_region(main: &mut Main, start: u32, end: u32)
    requires quiet { MayStore main.old }
    requires rows { HasRows (heap_of main.old) }
    requires stands { StandsBetween main.old.seat.space start end }
    ensures blanked { let words = heap_words main.new.seat in
        BlanksBehind (heap_of main.old) words start end }
    ensures rest { main.new ≡ with_table main.old main.new.seat.table }
{
    // There are as many words as addresses before the marks.
    main.addresses_fit();
    let behind = row_end(main, start, end);
    main.blank(behind, end - behind);
}

/// Makes each word of pages, of eden and of the segments 0 that is of no cell.
pub(crate) fn blank_cells(main: &mut Main)
    requires quiet { MayStore main.old }
    requires whole { Whole (heap_of main.old) }
    ensures words { AreWordsOf (heap_of main.old) (heap_words main.new.seat) }
    ensures rest { main.new ≡ with_table main.old main.new.seat.table }
{
    let regions = main.regions();
    // Pages are used whole.
    let mut at = regions.start(Region::Eden);
    while let Some(end) = regions.cells_end(at) {
        blank_region(main, at, end);
        at = end;
    }
}
