//! The mutator of a heap of one page, on a seat with a shared table (`write_barrier`): it reads what it stored, in the
//! page and in eden. What is expected is worked out by hand.
ghost use Rattle.std.specs.Prelude.{◌≡◌, IfOk};
ghost use Rattle.heap_table.specs.Phases.{Quiet};
ghost use Rattle.table_tests.specs.OpenMains.{IsBareMain};

use heap_table::HeapTable;
use page_space::{Regions, Run, Sizes};
use std::alloc::Global;
use std::process::Abort;
use std::test::Fail;
use tagged_word::{NoMemory, Word};
use word_store::Reads;
use write_barrier::Main;

/// A mutator with a shared table, for a heap of one page.
pub(crate) fn opened(alloc: Global) -> Result<Main, NoMemory>
    ensures { IfOk result IsBareMain }
{
    let sizes = Sizes {
        pages: 1,
        young: 64,
        helpers: 0,
    };
    let regions = Regions::new(sizes, 1);
    let seat = HeapTable::open(alloc, regions, true)?;
    Main::open(alloc, seat, regions)
}

/// Stores a word in a slot, and reads it back.
fn stored(rt: &impl Abort, main: &mut Main, cell: u32, offset: u32, word: Word) -> u64
    requires quiet { main.old.seat.phase ≡ Quiet }
    ensures quiet { main.new.seat.phase ≡ Quiet }
{
    // There are as many words as addresses before the marks.
    let _regions = main.regions();
    let end = main.count();
    assert!(rt; cell < end);
    assert!(rt; offset < end - cell);
    main.store(cell, offset, word);
    main.slot(cell, offset)
}

#[test]
fn a_mutator_reads_what_it_stored_beside_a_shared_table(rt: HostRuntime) -> Result<(), Fail> {
    let mut main = opened(rt.alloc())?;
    let young = Word::reference(2_048);
    assert!(rt;
        main.reserve(2)
            == Ok(Run {
                at: 2_048,
                words: 2
            })
    );
    assert_eq!(rt; stored(&rt, &mut main, 2_048, 1, Word(10)), 10);
    assert_eq!(rt; stored(&rt, &mut main, 4, 1, young), young.0);
    assert_eq!(rt; stored(&rt, &mut main, 6, 0, Word(10)), 10);
    assert!(rt; main.next_recorded(0) == Some(5) && main.next_recorded(6).is_none());
    Ok(())
}
