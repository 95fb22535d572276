//! Whether a kept heap is another one moved: after scavenges, and with words changed by hand.
use crate::copied_objects::OBJECTS;
use crate::linked_cells::CELLS;
use heap_check::check;
use heap_model::{HeapImage, HeapWords};
use heap_run::{MemSink, MemSource, OpenGate, run};
use slow_check::{Move, is_moved};
use std::alloc::Global;
use std::process::Abort;
use std::test::Fail;
use std::thread::Threads;

/// What differs from a kept heap.
#[derive(Clone, Copy)]
pub(crate) enum Change {
    /// The word at an address.
    Word(usize, u64),
    /// How many words the survivors have.
    Survivors(u32),
}

/// Changes of the second heap, from which address to which what stands there came, what the heap has
/// with them, and whether it is the first one moved so.
pub(crate) type Case = (&'static [Change], &'static [(u32, u32)], &'static str, bool);

/// Two heaps that runs of scripts keep, and cases of them.
pub(crate) struct Pair {
    pub(crate) old: &'static [u8],
    pub(crate) new: &'static [u8],
    pub(crate) cases: &'static [Case],
}

/// The heap that a script's run keeps, of the smallest sizes.
fn kept<R: Threads + Sync + AllocGlobal>(rt: &R, source: &[u8]) -> Result<HeapImage, Fail> {
    let alloc = rt.alloc();
    let mut words = Vec::new(alloc);
    for word in ["run", "--pages", "1", "--young", "64", "--helpers", "0"] {
        words.push(String::from_str(alloc, word)?)?;
    }
    let mut from = MemSource::new(source.to_vec(alloc)?, 4096, Vec::new(alloc));
    let mut sink = MemSink::new(alloc, 1 << 20, 4096, Vec::new(alloc))?;
    let kept = run(rt, alloc, &words, &mut from, &mut sink, &OpenGate).kept;
    Ok(kept.ok_or("no heap was kept")?.image)
}

/// The image with these changes.
fn changed(image: HeapImage, changes: &[Change]) -> HeapImage {
    let mut words = image.words.into_vec();
    let mut survivors = image.survivors;
    for change in changes {
        match *change {
            Change::Word(at, word) => {
                if at < words.len() {
                    words[at] = word;
                }
            }
            Change::Survivors(other) => survivors = other,
        }
    }
    HeapImage {
        regions: image.regions,
        used: image.used,
        survivors,
        shapes: image.shapes,
        words: HeapWords::from_vec(words),
    }
}

/// The moves of these addresses.
fn moves_of(alloc: Global, pairs: &[(u32, u32)]) -> Result<Vec<Move>, Fail> {
    let mut moves = Vec::new(alloc);
    for (from, to) in pairs {
        moves.push(Move {
            from: *from,
            to: *to,
        })?;
    }
    Ok(moves)
}

/// Whether the new heap is the old one moved, which is whole.
fn judged(alloc: Global, old: &HeapImage, new: &HeapImage, moves: &[Move]) -> Result<bool, Fail> {
    let Ok(_counts) = check(alloc, old) else {
        return Err(Fail::from("a flaw, or memory was refused"));
    };
    match is_moved(alloc, old, new, moves) {
        Ok(answer) => Ok(answer),
        Err(_) => Err(Fail::from("memory was refused")),
    }
}

/// Each of the cases is judged as it is to be.
fn are_judged<R: Threads + Sync + Abort + AllocGlobal>(rt: &R, pairs: &[Pair]) -> Result<(), Fail> {
    for pair in pairs {
        let old = kept(rt, pair.old)?;
        for (changes, moves, what, expected) in pair.cases {
            let new = changed(kept(rt, pair.new)?, changes);
            let moves = moves_of(rt.alloc(), moves)?;
            assert_eq!(rt;
                judged(rt.alloc(), &old, &new, &moves)?,
                *expected,
                "{what}"
            );
        }
    }
    Ok(())
}

#[test]
fn heaps_are_moved_where_each_cell_that_stays_is(rt: HostRuntime) -> Result<(), Fail> {
    are_judged(&rt, &OBJECTS)?;
    are_judged(&rt, &CELLS)
}
