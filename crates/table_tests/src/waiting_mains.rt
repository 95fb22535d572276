//! The mutator while a cycle of four cells waits (`write_barrier`): their colours are told, one is put black, and the
//! cycle goes on or ends.
ghost use Rattle.std.specs.Prelude.{◌≡◌, ◌<◌};
ghost use Rattle.table_tests.specs.OpenMains.{IsBareMain, IsMarkingMain};
ghost use Rattle.table_tests.specs.WaitingMains.{IsPausedMain, IsWholeMain};

use crate::open_mains::{begin, put_words};
use crate::opened_mutators::opened;
use shared_table::{Choice, Colour};
use std::alloc::Global;
use std::test::Fail;
use tagged_word::NoMemory;
use write_barrier::Main;

/// The cycle that waited, with no cell promoted meanwhile.
struct AsItWas;

impl Choice for AsItWas {
    ghost use Rattle.write_barrier.specs.Pauses.{IsItself};

    ghost fits = { IsItself };
}

/// Lets the cycle wait, and goes on with it.
pub(crate) fn wait(main: &mut Main)
    requires marking { IsMarkingMain main.old }
    ensures marking { IsMarkingMain main.new }
{
    main.pause_cycle();
    main.resume_cycle::<AsItWas>(0);
}

/// The number of a cell's colour while the cycle waits.
fn told_at(main: &mut Main, at: u32) -> u64
    requires paused { IsPausedMain main.old }
    requires within { at < 2048 }
    ensures same { main.new ≡ main.old }
{
    match main.colour(at) {
        Colour::White => 0,
        Colour::Grey => 1,
        Colour::Black => 2,
    }
}

/// The colours of the four cells while the cycle waits, by their numbers.
fn told(main: &mut Main) -> [u64; 4]
    requires paused { IsPausedMain main.old }
    ensures same { main.new ≡ main.old }
{
    [
        told_at(main, 0),
        told_at(main, 1_024),
        told_at(main, 1_032),
        told_at(main, 1_040),
    ]
}

/// Lets the cycle wait, and says what is known of it.
fn pause(main: &mut Main)
    requires marking { IsMarkingMain main.old }
    ensures whole { IsWholeMain main.new }
{
    main.pause_cycle();
}

/// Lets the cycle wait, and ends it. Returns the colours of the four cells meanwhile.
pub(crate) fn end_waiting(main: &mut Main) -> [u64; 4]
    requires marking { IsMarkingMain main.old }
    ensures bare { IsBareMain main.new }
{
    pause(main);
    let colours = told(main);
    main.end_cycle();
    colours
}

/// The colours of the four cells of a page in a cycle that waits, after the cell at an address was put black. Returns
/// nothing where the four cells are none.
fn put_black(alloc: Global, at: u32) -> Result<Option<[u64; 4]>, NoMemory>
    requires within { at < 2048 }
{
    let mut main = opened(alloc)?;
    for start in [0, 1_024, 1_032, 1_040] {
        put_words(&mut main, start, &[6, 3, 0]);
    }
    if !begin(alloc, &mut main)? {
        return Ok(None);
    }
    pause(&mut main);
    main.put_black(at);
    Ok(Some(told(&mut main)))
}

#[test]
fn one_cell_is_put_black_while_a_cycle_waits(rt: HostRuntime) -> Result<(), Fail> {
    let cases = [
        (0, [2, 0, 0, 0]),
        (1_024, [0, 2, 0, 0]),
        (1_032, [0, 0, 2, 0]),
        (1_040, [0, 0, 0, 2]),
        (1_041, [0, 0, 0, 0]),
    ];
    for (at, wanted) in cases {
        if at < 2_048 {
            assert_eq!(rt; put_black(rt.alloc(), at)?, Some(wanted), "{}", at);
        }
    }
    Ok(())
}
