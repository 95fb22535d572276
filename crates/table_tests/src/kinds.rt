//! A marker visits a cell of each kind (`marker`). What is expected is worked out by hand.
ghost use Rattle.std.specs.Prelude.{◌≡◌, ◌<◌, [], None, true, IfOk, IfSome};
ghost use Rattle.core_parts.specs.Lists.{is_in};
ghost use Rattle.shared_table.specs.declared.phase.Phase.TheVariants.{Mark};
ghost use Rattle.table_tests.specs.CellPages.{HasThese, IsOpenWithThree};

use crate::cells::{begin, is_in};
use crate::cycles::{bare, own_words};
use cell_list::CellList;
use crew::OpenGate;
use marker::{Marker, Outcome};
use shared_table::{Colour, Counts, MainSide, OwnWords};
use std::alloc::Global;
use std::test::Fail;
use tagged_word::NoMemory;

/// Refers to the box at 1,024.
pub(crate) const TO_FIRST: u64 = 4_097;

/// Refers to the box at 1,027.
pub(crate) const TO_SECOND: u64 = 4_109;

/// The word of the prototype slot of an object that has no prototype: `undefined`.
pub(crate) const NO_PROTO: u64 = 3;

/// Refers to a young cell.
pub(crate) const TO_YOUNG: u64 = 8_401;

/// The layout words of the shapes from 0 on: of no cell, a list, a weak map, a store, a table, a box, and free words;
/// then of two plain objects: one with a raw slot between two others, and one with two slots.
pub(crate) const LAYOUTS: [u64; 10] = [0, 2, 3, 4, 5, 6, 7, 8, 9_009, 545];

/// Puts a word in a list, if it has the place.
pub(crate) fn put(words: &mut Vec<u64>, at: usize, word: u64) {
    if let Some(place) = words.get_mut(at) {
        *place = word;
    }
}

/// So many words, which begin with these and are 0 then.
pub(crate) fn padded(alloc: Global, first: &[u64], count: usize) -> Result<Vec<u64>, NoMemory> {
    let mut words = vec![in alloc; 0u64; count]?;
    for (at, word) in first.iter().enumerate() {
        put(&mut words, at, *word);
    }
    Ok(words)
}

/// A store of 1,000 slots, of which the last refers to the second box.
pub(crate) fn long_store(alloc: Global) -> Result<Vec<u64>, NoMemory> {
    let mut words = vec![in alloc; 10u64; 1_002]?;
    put(&mut words, 0, 14);
    put(&mut words, 1, 1_000);
    put(&mut words, 1_001, TO_SECOND);
    Ok(words)
}

/// The words of a page with a cell at its start, and the two boxes.
pub(crate) fn page(alloc: Global, cell: &[u64]) -> Result<Vec<u64>, NoMemory> {
    let mut words = padded(alloc, cell, 2_048)?;
    put(&mut words, 1_024, 22);
    put(&mut words, 1_027, 22);
    Ok(words)
}

/// Shades a cell that the cycle began with, and gives it to the board. Returns whether nothing was at its place.
fn give(side: &mut MainSide, starts: &[u64], at: u32) -> bool
    requires these { HasThese side.old.main starts.now }
    requires among { is_in starts.now at ≡ true }
    requires within { at < side.old.main.old }
    ensures phase { side.new.main.phase ≡ Mark }
    ensures starts { side.new.main.view.starts ≡ starts.now }
    ensures born { side.new.main.view.born ≡ starts.now }
    ensures out { side.new.main.out ≡ 0 }
    ensures old { side.new.main.old ≡ side.old.main.old }
{
    side.shade(at);
    side.give_board(0, at) == 0
}

/// A page in an open cycle with the three cells, of which the first is grey and on the board. Nothing where the words
/// are not those of such cells.
pub(crate) fn opened(
    alloc: Global,
    own: &OwnWords,
    words: &[u64],
    layouts: &[u64],
) -> Result<Option<MainSide>, NoMemory>
    ensures { IfOk result (λ found. IfSome found (λ side. IsOpenWithThree side.main × (side.main.out ≡ 0))) }
{
    let counts = Counts {
        old: 2_048,
        shapes: 8_200,
    };
    let starts: [u64; 3] = [0, 1_024, 1_027];
    let mut side = bare(alloc, counts)?;
    if side.counts().old != 2_048 {
        return Ok(None);
    }
    if !is_in(&starts, 0) {
        return Ok(None);
    }
    if !begin(&mut side, own, words, layouts, &starts) {
        return Ok(None);
    }
    if !give(&mut side, &starts, 0) {
        return Ok(None);
    }
    Ok(Some(side))
}

/// Makes so many turns with a seat that was lent for them.
fn run(side: &mut MainSide, marker: &mut Marker, turns: u32) -> Option<Outcome>
    requires mark { side.old.main.phase ≡ Mark }
    requires out { side.old.main.out ≡ 0 }
    requires table { marker.old.table ≡ side.old.table }
    requires free { marker.old.seat ≡ None }
    requires empty { marker.old.listing.addresses ≡ [] }
    requires room { marker.old.listing.bound ≡ side.old.main.old }
    ensures free { marker.new.seat ≡ None }
    ensures bound { marker.new.listing.bound ≡ side.old.main.old }
    ensures old { side.new.main.old ≡ side.old.main.old }
{
    marker.attach(side.lend());
    let outcome = marker.mark_some(turns, &OpenGate);
    if let Some(seat) = marker.detach() {
        side.take_back(seat);
    }
    outcome
}

/// The colour of a cell, if the pages have its address.
fn colour_at(side: &mut MainSide, at: u32) -> Option<Colour> {
    if at < side.counts().old {
        Some(side.colour(at))
    } else {
        None
    }
}

/// What the marker has left: the cells that wait with it.
pub(crate) fn left_with(
    alloc: Global,
    marker: &mut Marker,
    bound: u32,
) -> Result<Vec<u32>, NoMemory>
    requires free { marker.old.seat ≡ None }
    requires room { marker.old.listing.bound ≡ bound }
{
    let mut list = CellList::new(alloc, bound)?;
    marker.hand_over(&mut list);
    let mut found = Vec::new(alloc);
    for place in 0..list.len() {
        found.push(list.get(place))?;
    }
    Ok(found)
}

/// What a marker came to with a cell at the start of a page in two turns: the outcome, the colours of the three cells,
/// and the cells that wait with it.
#[derive(Drop)]
struct Visited {
    outcome: Option<Outcome>,
    colours: [Option<Colour>; 3],
    listed: Vec<u32>,
}

/// Lets a marker make two turns in an open cycle. The first takes the cell from the board.
fn visit_first(alloc: Global, side: MainSide) -> Result<Visited, NoMemory>
    requires open { IsOpenWithThree side.main }
    requires out { side.main.out ≡ 0 }
{
    let mut side = side;
    let bound = side.counts().old;
    let mut marker = Marker::new(alloc, side.table()?, bound)?;
    let outcome = run(&mut side, &mut marker, 2);
    let colours = [
        colour_at(&mut side, 0),
        colour_at(&mut side, 1_024),
        colour_at(&mut side, 1_027),
    ];
    Ok(Visited {
        outcome,
        colours,
        listed: left_with(alloc, &mut marker, bound)?,
    })
}

/// The colour of a cell that a marker has found, or has not.
fn expected(listed: &[u32], at: u32) -> Option<Colour> {
    if listed.contains(&at) {
        Some(Colour::Grey)
    } else {
        Some(Colour::White)
    }
}

#[test]
fn a_marker_visits_each_kind_of_cell(rt: HostRuntime) -> Result<(), Fail> {
    let alloc = rt.alloc();
    let long = long_store(alloc)?;
    let cases: [(&str, &[u64], &[u32]); 9] = [
        (
            "plain",
            &[34, 0, NO_PROTO, TO_FIRST, TO_SECOND, TO_YOUNG],
            &[1_024],
        ),
        ("prototype", &[38, 0, TO_SECOND, 10, 10], &[1_027]),
        (
            "one target twice",
            &[38, 0, NO_PROTO, TO_FIRST, TO_FIRST],
            &[1_024],
        ),
        ("list", &[6, TO_SECOND, 0], &[1_027]),
        ("weak map", &[10, TO_FIRST, 0], &[1_024]),
        ("table", &[18, 1, TO_FIRST, TO_SECOND], &[]),
        ("box", &[22, TO_FIRST], &[]),
        ("store of 0", &[14, 0], &[]),
        ("store of 1,000", long.as_slice(), &[1_027]),
    ];
    let layouts = padded(alloc, &LAYOUTS, 8_200)?;
    let own = own_words(alloc)?;
    for (name, cell, listed) in cases {
        let words = page(alloc, cell)?;
        let found = opened(alloc, &own, words.as_slice(), layouts.as_slice())?;
        assert!(rt; found.is_some(), "{name}");
        if let Some(side) = found {
            let came = visit_first(alloc, side)?;
            let colours = [
                Some(Colour::Black),
                expected(listed, 1_024),
                expected(listed, 1_027),
            ];
            assert_eq!(rt; came.outcome, Some(Outcome::Spent { turns: 2 }), "{name}");
            assert_eq!(rt; came.colours, colours, "{name}");
            assert_eq!(rt; came.listed.as_slice(), listed, "{name}");
        }
    }
    Ok(())
}
