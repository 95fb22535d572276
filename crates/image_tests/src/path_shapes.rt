//! What a tree of shapes answers, act by act: values that are written out by hand. Each call is made
//! as a caller makes it, behind the tests that its conditions name.
use shape_tree::{PathField, Rep, ShapeTree, ShapesFull};
use std::process::Abort;
use std::test::Fail;

/// A call of a tree: of this shape, with a field, or with a place in its path.
#[derive(Clone, Copy, Debug)]
enum Act {
    Step(u32, PathField),
    Change(u32, u32, Rep),
    Without(u32, u32),
}

use Act::*;

/// An act, the shape that it leads to, and how many paths there are then.
type Turn = (Act, u32, u32);

/// A shape, its layout word and its parent, and the cap and the fields of its path.
type Shown = (u32, u64, Option<u32>, u32, &'static [PathField]);

/// Acts before a tree is copied, acts that its copy goes on with as well, and what both show then.
type Script = (&'static [Turn], &'static [Turn], &'static [Shown]);

const A: u32 = 5;

const B: u32 = 6;

const C: u32 = 7;

const SMALL_A: PathField = PathField {
    name: A,
    rep: Rep::Small,
};

const SMALL_B: PathField = PathField {
    name: B,
    rep: Rep::Small,
};

const SMALL_C: PathField = PathField {
    name: C,
    rep: Rep::Small,
};

const WIDE_A: PathField = PathField {
    name: A,
    rep: Rep::Wide,
};

const WIDE_B: PathField = PathField {
    name: B,
    rep: Rep::Wide,
};

const WIDE_C: PathField = PathField {
    name: C,
    rep: Rep::Wide,
};

const SCRIPTS: [Script; 4] = [
    // Of two fields in two slots the second is raw; a third one is beside the object.
    (
        &[(Step(10, SMALL_A), 17, 10), (Step(17, WIDE_B), 18, 11)],
        &[(Step(18, WIDE_C), 19, 12)],
        &[
            (10, 0x021, None, 2, &[]),
            (18, 0x2221, Some(17), 2, &[SMALL_A, WIDE_B]),
            (19, 0x2221, Some(18), 2, &[SMALL_A, WIDE_B, WIDE_C]),
        ],
    ),
    // A field that is changed in front adds each path behind it once.
    (
        &[
            (Step(12, SMALL_A), 17, 10),
            (Step(17, SMALL_B), 18, 11),
            (Step(18, SMALL_C), 19, 12),
        ],
        &[
            (Change(19, 0, Rep::Wide), 22, 15),
            (Change(19, 0, Rep::Wide), 22, 15),
        ],
        &[
            (22, 0x1341, Some(21), 4, &[WIDE_A, SMALL_B, SMALL_C]),
            (20, 0x1141, Some(12), 4, &[WIDE_A]),
        ],
    ),
    // A path that is reached in two ways has one shape.
    (
        &[
            (Step(12, SMALL_A), 17, 10),
            (Step(17, SMALL_B), 18, 11),
            (Step(18, SMALL_C), 19, 12),
        ],
        &[
            (Without(19, 1), 20, 13),
            (Step(12, SMALL_A), 17, 13),
            (Step(17, SMALL_C), 20, 13),
            (Without(19, 2), 18, 13),
        ],
        &[
            (20, 0x0241, Some(17), 4, &[SMALL_A, SMALL_C]),
            (19, 0x0341, Some(18), 4, &[SMALL_A, SMALL_B, SMALL_C]),
        ],
    ),
    // At a fork each field leads to its own path. What is added the first time is there the second.
    (
        &[(Step(12, SMALL_A), 17, 10), (Step(17, SMALL_B), 18, 11)],
        &[
            (Step(12, SMALL_A), 17, 11),
            (Step(12, WIDE_A), 19, 12),
            (Step(12, SMALL_B), 20, 13),
            (Change(18, 0, Rep::Wide), 21, 14),
            (Change(18, 1, Rep::Wide), 22, 15),
            (Change(22, 1, Rep::Small), 18, 15),
            (Without(18, 0), 20, 15),
            (Without(22, 0), 23, 16),
            (Without(21, 1), 19, 16),
            (Step(12, SMALL_A), 17, 16),
            (Step(12, WIDE_A), 19, 16),
            (Step(12, SMALL_B), 20, 16),
            (Change(18, 0, Rep::Wide), 21, 16),
            (Change(18, 1, Rep::Wide), 22, 16),
            (Change(22, 1, Rep::Small), 18, 16),
            (Without(18, 0), 20, 16),
            (Without(22, 0), 23, 16),
            (Without(21, 1), 19, 16),
        ],
        &[
            (21, 0x1241, Some(19), 4, &[WIDE_A, SMALL_B]),
            (22, 0x2241, Some(17), 4, &[SMALL_A, WIDE_B]),
            (23, 0x1141, Some(12), 4, &[WIDE_B]),
        ],
    ),
];

/// How many paths a step lacks.
fn lacks(step: shape_tree::Step) -> u32 {
    match step {
        shape_tree::Step::Found(_) => 0,
        shape_tree::Step::Missing => 1,
    }
}

/// How many paths an act would add, and what it leads to.
fn done(rt: &impl Abort, tree: &mut ShapeTree, act: Act) -> (u32, Result<u32, ShapesFull>) {
    match act {
        Step(shape, field) => {
            assert!(rt; tree.has_path(shape));
            assert!(rt; tree.fields(shape) < 64);
            assert!(rt; tree.lookup(shape, field.name).is_none());
            match tree.can_step(shape, field) {
                Ok(step) => (lacks(step), Ok(tree.step(shape, field, step))),
                Err(full) => (full.missing, Err(full)),
            }
        }
        Change(shape, at, rep) => {
            assert!(rt; tree.has_path(shape));
            assert!(rt; at < tree.fields(shape));
            let missing = tree.missing_change(shape, at, rep);
            (missing, tree.change(shape, at, rep))
        }
        Without(shape, at) => {
            assert!(rt; tree.has_path(shape));
            assert!(rt; at < tree.fields(shape));
            let missing = tree.missing_without(shape, at);
            (missing, tree.without(shape, at))
        }
    }
}

/// The act leads to this shape, and adds as many paths as were missing: there are so many then.
fn leads(rt: &impl Abort, tree: &mut ShapeTree, turn: Turn) {
    let (act, shape, paths) = turn;
    let before = tree.paths() as u64;
    let (missing, answer) = done(rt, tree, act);
    let sum = before + missing as u64;
    assert_eq!(rt;
        (answer, tree.paths(), sum),
        (Ok(shape), paths, paths as u64),
        "{act:?}"
    );
}

/// The shape has this layout word, parent, cap and fields, and each field is found by its name.
fn shows(rt: &impl Abort, tree: &mut ShapeTree, shown: &Shown) {
    let (shape, word, parent, cap, fields) = *shown;
    assert!(rt; tree.has_path(shape));
    let others = (
        tree.parent(shape),
        tree.cap(shape),
        tree.fields(shape) as usize,
    );
    assert_eq!(rt;
        (tree.layout(shape).word(), others),
        (word, (parent, cap, fields.len()))
    );
    assert!(rt; tree.lookup(shape, 4_000_000).is_none());
    for at in 0..tree.fields(shape) {
        // A look-up caches what it finds, so what is known of the tree is asked again.
        assert!(rt; tree.has_path(shape));
        assert!(rt; at < tree.fields(shape));
        let field = tree.field(shape, at);
        let found = tree.lookup(shape, field.name).map(|found| found.at);
        assert_eq!(rt; (fields.get(at as usize), found), (Some(&field), Some(at)));
    }
}

fn is_sent_and_shared<T: Send + Sync>(_tree: &T) {}

#[test]
fn a_tree_and_its_copy_go_on_alike(rt: HostRuntime) -> Result<(), Fail> {
    let mut copy = ShapeTree::new(rt.alloc())?;
    is_sent_and_shared(&copy);
    for (before, after, shown) in &SCRIPTS {
        let mut tree = ShapeTree::new(rt.alloc())?;
        for turn in *before {
            leads(&rt, &mut tree, *turn);
        }
        // What the copy had of the script before is gone.
        copy.copy_from(&tree);
        for turn in *after {
            leads(&rt, &mut tree, *turn);
            leads(&rt, &mut copy, *turn);
        }
        for shape in *shown {
            shows(&rt, &mut tree, shape);
            shows(&rt, &mut copy, shape);
        }
    }
    Ok(())
}

#[test]
fn the_shapes_of_a_new_tree_have_their_words(rt: HostRuntime) -> Result<(), Fail> {
    let mut tree = ShapeTree::new(rt.alloc())?;
    for shape in 1..8 {
        assert_eq!(rt; tree.layout(shape).word(), shape as u64 + 1);
        assert!(rt; !tree.has_path(shape));
    }
    for cap in 0..9 {
        let root = tree.root(cap);
        assert_eq!(rt; root, cap + 8);
        shows(&rt, &mut tree, &(root, 16 * cap as u64 + 1, None, cap, &[]));
    }
    Ok(())
}

#[test]
fn a_path_has_64_fields_and_a_tree_8192_paths(rt: HostRuntime) -> Result<(), Fail> {
    let mut tree = ShapeTree::new(rt.alloc())?;
    let mut shape = 16;
    for name in 0..64u32 {
        let field = PathField {
            name,
            rep: Rep::Wide,
        };
        leads(&rt, &mut tree, (Step(shape, field), 17 + name, 10 + name));
        shape = 17 + name;
    }
    leads(&rt, &mut tree, (Change(80, 0, Rep::Tagged), 144, 137));
    leads(&rt, &mut tree, (Without(144, 63), 143, 137));
    for (shape, word) in [(80, 0xff881), (144, 0xfe881)] {
        assert!(rt; tree.has_path(shape));
        assert_eq!(rt; tree.layout(shape).word(), word);
    }
    for name in 0..8_064u32 {
        let field = PathField {
            name,
            rep: Rep::Small,
        };
        let full = ShapesFull {
            paths: 8_192,
            missing: 1,
        };
        let expected = if name < 8_055 {
            Ok(145 + name)
        } else {
            Err(full)
        };
        let answer = done(&rt, &mut tree, Step(8, field));
        assert_eq!(rt; answer, (1, expected), "field {name}");
    }
    assert!(rt; tree.has_path(8_199));
    assert!(rt; !tree.has_path(8_200));
    // What is there needs no room.
    let there = PathField {
        name: 8_054,
        rep: Rep::Small,
    };
    leads(&rt, &mut tree, (Step(8, there), 8_199, 8_192));
    Ok(())
}
