//! What cells of each kind are, and how many words and which slots they have (`tagged_word`).

use tagged_word::shape::{COUNT, PATHS, fixed_layout};
use tagged_word::{Kind, LayoutWord};

/// A fixed shape and its kind: whether its cells are objects, are free, have a length, and are
/// marked by it.
const KINDS: [(u32, Kind, bool, bool, bool, bool); 7] = [
    (1, Kind::List, true, false, false, false),
    (2, Kind::Weak, true, false, false, false),
    (3, Kind::Store, false, false, true, true),
    (4, Kind::Table, false, false, true, false),
    (5, Kind::Boxed, false, false, false, false),
    (6, Kind::Filler, false, true, false, false),
    (7, Kind::Gap, false, true, true, false),
];

#[test]
fn each_kind_and_each_fixed_shape_says_what_its_cells_are(rt: HostRuntime) {
    for (shape, kind, object, free, length, marked) in KINDS {
        assert!(rt;
            fixed_layout(shape) == Some(LayoutWord::bare(kind)),
            "shape {shape}"
        );
        assert!(rt; kind.is_object() == object, "objects of {shape}");
        assert!(rt; kind.is_free() == free, "free cells of {shape}");
        assert!(rt; kind.has_length() == length, "length of {shape}");
        assert!(rt;
            kind.marks_by_length() == marked,
            "marked length of {shape}"
        );
    }
    let plain = Kind::Plain;
    assert!(rt; plain.is_object() && !plain.is_free());
    assert!(rt; !plain.has_length() && !plain.marks_by_length());
    for shape in [0, PATHS, COUNT] {
        assert!(rt; fixed_layout(shape).is_none(), "shape {shape}");
    }
}

/// Row, a kind, a cap, a length, and the size of such a cell: none passes a page, and no gap is of
/// one word.
const SIZES: [(u32, Kind, u32, u64, Option<u32>); 17] = [
    (1, Kind::Plain, 8, 0, Some(11)),
    (2, Kind::List, 0, 0, Some(3)),
    (3, Kind::Weak, 0, 0, Some(3)),
    (4, Kind::Store, 0, 2_046, Some(2_048)),
    (5, Kind::Store, 0, 2_047, None),
    (6, Kind::Store, 0, u64::MAX, None),
    (7, Kind::Table, 0, 1_023, Some(2_048)),
    (8, Kind::Table, 0, 1_024, None),
    (9, Kind::Table, 0, u64::MAX, None),
    (10, Kind::Boxed, 0, 0, Some(2)),
    (11, Kind::Filler, 0, 0, Some(1)),
    (12, Kind::Gap, 0, 0, None),
    (13, Kind::Gap, 0, 1, None),
    (14, Kind::Gap, 0, 2, Some(2)),
    (15, Kind::Gap, 0, 2_048, Some(2_048)),
    (16, Kind::Gap, 0, 2_049, None),
    (17, Kind::Gap, 0, u64::MAX, None),
];

/// A plain cell that uses both of its slots. The second one is raw.
const PLAIN: LayoutWord = LayoutWord {
    kind: Kind::Plain,
    cap: 2,
    used: 2,
    raw: 0b10,
};

const STORE: LayoutWord = LayoutWord {
    kind: Kind::Store,
    cap: 0,
    used: 0,
    raw: 0,
};

const TABLE: LayoutWord = LayoutWord {
    kind: Kind::Table,
    cap: 0,
    used: 0,
    raw: 0,
};

/// Row, a layout, a length, an offset, whether marking visits the slot there, and whether a
/// scavenge does.
const SLOTS: [(u32, LayoutWord, u64, u32, bool, bool); 19] = [
    (1, PLAIN, 0, 0, false, false),
    (2, PLAIN, 0, 1, true, true),
    (3, PLAIN, 0, 2, true, true),
    (4, PLAIN, 0, 3, true, true),
    (5, PLAIN, 0, 4, false, false),
    (6, PLAIN, 0, 5, false, false),
    (7, STORE, 3, 0, false, false),
    (8, STORE, 3, 1, false, false),
    (9, STORE, 3, 2, true, true),
    (10, STORE, 3, 3, true, true),
    (11, STORE, 3, 4, true, true),
    (12, STORE, 3, 5, false, false),
    (13, TABLE, 2, 1, false, false),
    (14, TABLE, 2, 2, false, true),
    (15, TABLE, 2, 3, false, true),
    (16, TABLE, 2, 4, false, true),
    (17, TABLE, 2, 5, false, true),
    (18, TABLE, 2, 6, false, false),
    (19, TABLE, u64::MAX, u32::MAX, false, true),
];

#[test]
fn a_cell_has_the_words_and_the_slots_of_its_kind(rt: HostRuntime) {
    for (row, kind, cap, length, size) in SIZES {
        let layout = LayoutWord {
            kind,
            cap,
            used: 0,
            raw: 0,
        };
        assert!(rt; layout.size(length) == size, "size {row}");
    }
    for (row, layout, length, offset, tagged, visited) in SLOTS {
        assert!(rt; layout.is_tagged(length, offset) == tagged, "marking {row}");
        assert!(rt;
            layout.is_scavenge_slot(length, offset) == visited,
            "a scavenge {row}"
        );
    }
}
