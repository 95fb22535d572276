//! Images with words and addresses that are written out by hand, and what is changed of them.
use heap_model::{HeapImage, HeapWords};
use page_space::{Regions, Sizes};
use shape_tree::{PathField, Rep, ShapeTree};
use std::alloc::Global;
use std::process::Abort;
use std::test::Fail;

/// Words that stand at an address and behind it.
pub(crate) type Stretch = (usize, &'static [u64]);

/// A heap written out by hand.
#[derive(Clone, Copy)]
pub(crate) struct Worked {
    /// The sizes, and how many variables there are.
    pub(crate) sizes: Sizes,
    pub(crate) variables: u32,
    /// How many words there are in all.
    pub(crate) words: usize,
    /// The address of the layout words.
    pub(crate) layouts: usize,
    /// How many words of eden are used, and how many the survivors have.
    pub(crate) used: u32,
    pub(crate) survivors: u32,
    /// The steps that add the shapes from 17 on: each from a shape, by a name and a representation.
    pub(crate) steps: &'static [(u32, u32, Rep)],
    /// The words that differ from those of a heap without objects.
    pub(crate) stretches: &'static [Stretch],
}

/// What differs from a worked heap.
#[derive(Clone, Copy, Debug)]
pub(crate) enum Change {
    /// The word at an address.
    Word(usize, u64),
    /// How many words there are in all.
    Words(usize),
    /// How many words of eden are used.
    Used(u32),
    /// How many words the survivors have.
    Survivors(u32),
}

/// The layout words of the shapes from 0 on that are always there.
const FIRST_LAYOUTS: [u64; 17] = [0, 2, 3, 4, 5, 6, 7, 8, 1, 17, 33, 49, 65, 81, 97, 113, 129];

/// Puts words at an address and behind it, as far as there are words.
fn put_all(words: &mut Vec<u64>, at: usize, stretch: &[u64]) {
    let mut a = at;
    for word in stretch {
        if a < words.len() {
            words[a] = *word;
            a += 1;
        }
    }
}

/// The tree with these paths added.
fn shapes(rt: &impl Abort, alloc: Global, worked: &Worked) -> Result<ShapeTree, Fail> {
    let Ok(mut shapes) = ShapeTree::new(alloc) else {
        return Err(Fail::from("memory was refused"));
    };
    for (shape, name, rep) in worked.steps {
        assert!(rt; shapes.has_path(*shape));
        assert!(rt; shapes.lookup(*shape, *name).is_none());
        assert!(rt; shapes.fields(*shape) < 64);
        let field = PathField {
            name: *name,
            rep: *rep,
        };
        let Ok(step) = shapes.can_step(*shape, field) else {
            return Err(Fail::from("a path was refused"));
        };
        shapes.step(*shape, field, step);
    }
    Ok(shapes)
}

/// The words of the heap: a gap of a page each, the layouts, and what differs.
fn words(alloc: Global, worked: &Worked) -> Result<Vec<u64>, Fail> {
    let mut words = vec![in alloc; 0u64; worked.words]?;
    for page in 0..worked.sizes.pages as usize {
        put_all(&mut words, page * 2_048, &[30, 2_048]);
    }
    put_all(&mut words, worked.layouts, &FIRST_LAYOUTS);
    for (at, stretch) in worked.stretches {
        put_all(&mut words, *at, stretch);
    }
    Ok(words)
}

/// The image of a worked heap with these changes.
pub(crate) fn image_of(
    rt: &impl Abort,
    alloc: Global,
    worked: &Worked,
    changes: &[Change],
) -> Result<HeapImage, Fail> {
    let mut worked = *worked;
    for change in changes {
        match *change {
            Change::Word(_, _) => {}
            Change::Words(other) => worked.words = other,
            Change::Used(other) => worked.used = other,
            Change::Survivors(other) => worked.survivors = other,
        }
    }
    let mut words = words(alloc, &worked)?;
    for change in changes {
        if let Change::Word(at, word) = *change {
            put_all(&mut words, at, &[word]);
        }
    }
    assert!(rt; worked.sizes.are_within(worked.variables));
    Ok(HeapImage {
        regions: Regions::new(worked.sizes, worked.variables),
        used: worked.used,
        survivors: worked.survivors,
        shapes: shapes(rt, alloc, &worked)?,
        words: HeapWords::from_vec(words),
    })
}
