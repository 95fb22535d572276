//! Two workers at one cell of eden (`eden_copies`): a list at 2048, whose slot refers to it. What is expected is worked
//! out by hand.
ghost use Rattle.std.specs.Prelude.{◌≡◌, ◌<◌, ◌≤◌, [], IfOk};
ghost use Rattle.shared_table.specs.Owned.{zeros};
ghost use Rattle.claims.specs.Sides.{lending};
ghost use Rattle.eden_copies.specs.Sides.{idle};
ghost use Rattle.table_tests.specs.EdenList.{small, HasList};

use claims::{ClaimSeat, Claims, Owner};
use crew::{Gate, OpenGate, Point};
use eden_copies::Worker;
use page_space::{Regions, Sizes};
use remembered_set::Remembered;
use shared_table::OwnWords;
use std::alloc::Global;
use std::cell::Cell;
use std::test::Fail;
use tagged_word::NoMemory;

/// The words of a heap of one page, with two variables.
fn bare_words(alloc: Global) -> Result<OwnWords, NoMemory>
    ensures { IfOk result (λ own. own ≡ zeros small) }
{
    let sizes = Sizes {
        pages: 1,
        young: 64,
        helpers: 1,
    };
    OwnWords::open(alloc, Regions::new(sizes, 2))
}

/// Puts the list and its layout word, and lets both variables refer to it.
fn fill(words: &mut OwnWords)
    requires { words.old ≡ zeros small }
    ensures { HasList words.new }
{
    words.put(2048, 6);
    words.put(2049, 8193);
    words.put_layout(1, 2);
    words.put(2368, 8193);
    words.put(2370, 8193);
}

/// A worker that has not run, with what its run needs.
#[derive(Drop)]
struct Shift<'a> {
    words: &'a OwnWords,
    recorded: &'a Remembered,
    claims: &'a Claims,
    worker: Worker,
    seat: ClaimSeat,
    ghost list: { HasList words.now },
    ghost none: { recorded.now ≡ record { bound = 2048; slots = [] } },
    ghost places: { claims.now.places ≡ 64 },
    ghost idle: { worker ≡ idle 64 0 },
    ghost own: { seat.table ≡ claims.now.table },
    ghost fresh: { seat.made ≡ [] },
}

impl<'a> Shift<'a> {
    /// Runs the worker, whose segment begins at an address.
    fn run<G: Gate>(self, gate: &G, start: u32, first: u32) -> Worker
        requires { start ≤ 4096 }
    {
        let Shift {
            words,
            recorded,
            claims,
            mut worker,
            mut seat,
        } = self;
        worker.run(words, recorded, claims, &mut seat, gate, start, first, 2);
        worker
    }
}

/// A worker and its seat, for a heap with the list.
fn begin_shift<'a>(
    alloc: Global,
    words: &'a OwnWords,
    recorded: &'a Remembered,
    claims: &'a Claims,
    owner: &mut Owner,
) -> Result<Shift<'a>, NoMemory>
    requires list { HasList words.now }
    requires none { recorded.now ≡ record { bound = 2048; slots = [] } }
    requires places { claims.now.places ≡ 64 }
    requires own { owner.old.table ≡ claims.now.table }
    requires few { owner.old.out < 7 }
    ensures { IfOk result (λ shift. owner.new ≡ lending owner.old) }
{
    let worker = Worker::new(alloc, &words.regions())?;
    Ok(Shift {
        words,
        recorded,
        claims,
        worker,
        seat: owner.lend(claims),
    })
}

/// A gate at which another worker makes its run, when the first has copied a cell and has not claimed it.
#[derive(Drop)]
struct Between<'a, 'b> {
    waits: &'b Cell<Option<Shift<'a>>>,
    done: &'b Cell<Option<Worker>>,
}

impl<'a, 'b> Gate for Between<'a, 'b> {
    fn pass(&self, point: Point) {
        if point == Point::WorkerLoaded
            && let Some(shift) = self.waits.take()
        {
            self.done.set(Some(shift.run(&OpenGate, 2304, 1)));
        }
    }
}

/// Makes both runs, that of the other worker between the first one's copy and its claim. Returns both workers, the
/// other one only if the first came to that point.
fn run_between(one: Shift<'_>, other: Shift<'_>) -> (Worker, Option<Worker>) {
    let waits = Cell::new(Some(other));
    let done = Cell::new(None);
    let gate = Between {
        waits: &waits,
        done: &done,
    };
    let first = one.run(&gate, 2240, 0);
    waits.into_inner();
    (first, done.into_inner())
}

#[test]
fn a_worker_finds_the_copy_of_an_earlier_one(rt: HostRuntime) -> Result<(), Fail> {
    let mut words = bare_words(rt.alloc())?;
    fill(&mut words);
    let recorded = Remembered::new(rt.alloc(), 1)?;
    let (claims, mut owner) = Claims::open(rt.alloc(), 64)?;
    let one = begin_shift(rt.alloc(), &words, &recorded, &claims, &mut owner)?;
    let other = begin_shift(rt.alloc(), &words, &recorded, &claims, &mut owner)?;
    let first = one.run(&OpenGate, 2240, 0);
    let second = other.run(&OpenGate, 2304, 1);
    assert!(rt; first.room() == [6, 8961, 0].as_slice());
    assert!(rt; first.copies().len() == 1);
    assert!(rt; second.room().is_empty());
    assert!(rt; second.copies().is_empty());
    Ok(())
}

#[test]
fn a_worker_whose_cell_was_claimed_meanwhile_undoes_its_copy(rt: HostRuntime) -> Result<(), Fail> {
    let mut words = bare_words(rt.alloc())?;
    fill(&mut words);
    let recorded = Remembered::new(rt.alloc(), 1)?;
    let (claims, mut owner) = Claims::open(rt.alloc(), 64)?;
    let one = begin_shift(rt.alloc(), &words, &recorded, &claims, &mut owner)?;
    let other = begin_shift(rt.alloc(), &words, &recorded, &claims, &mut owner)?;
    let (loser, won) = run_between(one, other);
    assert!(rt; loser.room().is_empty());
    assert!(rt; loser.copies().is_empty());
    assert!(rt; won.is_some());
    if let Some(winner) = won {
        assert!(rt; winner.room() == [6, 9217, 0].as_slice());
        assert!(rt; winner.copies().len() == 1);
    }
    Ok(())
}
