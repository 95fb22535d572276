//! Cases: a heap of one page is opened with a shared table, commands make it, all that lives is promoted, and a cycle
//! is opened. Then come commands, after each of which a helper looks at the page. The cycle is dropped, and what the
//! commands left reads back.
ghost use Rattle.std.specs.Prelude.{◌≡◌, IfOk};
ghost use Rattle.heap_table.specs.Phases.{Mark, Quiet};
ghost use Rattle.cycle_opening.specs.Opened.{HasNoYoung};
ghost use Rattle.cycle_tests.specs.Ready.{IsReady};

use crate::commands::{Act, carry_out};
use crate::seen::{Words, has_seen, has_words};
use cycle_opening::{drop_cycle, open_cycle};
use heap_table::HeapTable;
use page_space::{Regions, Sizes};
use scavenger::scavenge;
use std::alloc::Global;
use std::process::Abort;
use std::test::Fail;
use tagged_word::NoMemory;
use write_barrier::Main;

/// One page, and an eden of 256 words from 2,048 on. With six variables the root words of variable `x` stand at
/// 2,816 + 2 * `x`.
const SIZES: Sizes = Sizes {
    pages: 1,
    young: 256,
    helpers: 0,
};

const VARIABLES: u32 = 6;

/// The first root word of a variable.
pub(crate) const ROOTS: u32 = 2_816;

/// The first address of eden.
pub(crate) const EDEN: u32 = 2_048;

/// A command, and what is seen after it: the colours of the cells that are looked at, and words.
pub(crate) type Turn = (Act, &'static [u8], Words<'static>);

/// A case: the commands before the cycle, the cells that are looked at with their colours when the cycle is open, the
/// commands in the cycle, and those behind it, with words of the heap after each.
#[derive(Clone, Copy)]
pub(crate) struct Case<'a> {
    pub(crate) before: &'a [Act],
    pub(crate) cells: &'a [u32],
    pub(crate) opened: (&'static [u8], Words<'a>),
    pub(crate) turns: &'a [Turn],
    pub(crate) after: &'a [(Act, Words<'a>)],
}

/// A heap with a shared table.
fn opened(rt: &impl Abort, alloc: Global) -> Result<Main, NoMemory>
    ensures ready { IfOk result (λ main. IsReady main 0) }
    ensures quiet { IfOk result (λ main. main.seat.phase ≡ Quiet) }
{
    assert!(rt; SIZES.are_within(VARIABLES));
    let regions = Regions::new(SIZES, VARIABLES);
    let seat = HeapTable::open(alloc, regions, true)?;
    Main::open(alloc, seat, regions)
}

/// Carries commands out, before a cycle.
fn prepare(rt: &impl Abort, main: &mut Main, objects: &mut u32, acts: &[Act])
    requires ready { IsReady main.old objects.old }
    requires quiet { main.old.seat.phase ≡ Quiet }
    ensures ready { IsReady main.new objects.new }
    ensures quiet { main.new.seat.phase ≡ Quiet }
{
    for (number, act) in acts.iter().enumerate() {
        assert!(rt; carry_out(main, objects, *act), "command {number}");
    }
}

/// How many words the survivors have.
fn survivors(main: &mut Main) -> u32
    ensures words { result ≡ main.old.young.survivors }
    ensures same { main.new ≡ main.old }
{
    main.nursery_mut().survivors()
}

/// Promotes all that lives.
fn promote_all(
    rt: &impl Abort,
    alloc: Global,
    main: &mut Main,
    objects: u32,
) -> Result<(), NoMemory>
    requires ready { IsReady main.old objects }
    requires quiet { main.old.seat.phase ≡ Quiet }
    ensures ready { IfOk result (λ done. IsReady main.new objects) }
    ensures quiet { IfOk result (λ done. main.new.seat.phase ≡ Quiet) }
    ensures empty { IfOk result (λ done. HasNoYoung main.new) }
{
    let room = main.regions().sizes().young;
    let list = Vec::with_capacity(alloc, room as usize)?;
    let _list = scavenge(main, list, true);
    assert_eq!(rt; survivors(main), 0);
    Ok(())
}

/// Opens a cycle on the heap, of which nothing is young then.
fn begin(rt: &impl Abort, alloc: Global, main: &mut Main, objects: u32) -> Result<(), NoMemory>
    requires ready { IsReady main.old objects }
    requires quiet { main.old.seat.phase ≡ Quiet }
    ensures ready { IfOk result (λ done. IsReady main.new objects) }
    ensures mark { IfOk result (λ done. main.new.seat.phase ≡ Mark) }
{
    promote_all(rt, alloc, main, objects)?;
    open_cycle(main, objects);
    Ok(())
}

/// Carries commands out in the cycle, and looks at the heap after each.
fn take_turns(
    rt: &impl Abort,
    alloc: Global,
    main: &mut Main,
    objects: &mut u32,
    cells: &[u32],
    turns: &[Turn],
) -> Result<(), NoMemory>
    requires ready { IsReady main.old objects.old }
    requires mark { main.old.seat.phase ≡ Mark }
    ensures ready { IfOk result (λ done. IsReady main.new objects.new) }
    ensures mark { IfOk result (λ done. main.new.seat.phase ≡ Mark) }
{
    for (number, turn) in turns.iter().enumerate() {
        let (act, colours, words) = *turn;
        assert!(rt; carry_out(main, objects, act), "turn {number}");
        has_seen(rt, alloc, main, cells, colours, words, number)?;
    }
    Ok(())
}

/// Drops the cycle, and carries commands out. Words are these after each.
fn read_back(rt: &impl Abort, main: &mut Main, objects: &mut u32, acts: &[(Act, Words<'_>)])
    requires ready { IsReady main.old objects.old }
    requires mark { main.old.seat.phase ≡ Mark }
{
    drop_cycle(main);
    for (number, (act, words)) in acts.iter().enumerate() {
        assert!(rt;
            carry_out(main, objects, *act),
            "command {number} behind the cycle"
        );
        has_words(rt, main, words, number);
    }
}

/// Goes through a case in a new heap.
pub(crate) fn go(rt: &impl Abort, alloc: Global, case: Case<'_>) -> Result<(), Fail> {
    let mut main = opened(rt, alloc)?;
    let mut objects = 0;
    prepare(rt, &mut main, &mut objects, case.before);
    begin(rt, alloc, &mut main, objects)?;
    let (colours, words) = case.opened;
    has_seen(rt, alloc, &mut main, case.cells, colours, words, 1_000)?;
    take_turns(rt, alloc, &mut main, &mut objects, case.cells, case.turns)?;
    read_back(rt, &mut main, &mut objects, case.after);
    Ok(())
}
