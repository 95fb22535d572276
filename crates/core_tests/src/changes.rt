//! The changes of cells that the mutator makes while marking goes on, event by event. A row goes on
//! from the world that the row before it left, and tells what holds then: what the mutator owes, and
//! which of the cells that it made black it is not done with.

/// A list at 0 with two elements, in its store at 3: a cell and a small integer. That cell at 7, a
/// plain one of no slots. At 10 a plain cell with a slot, which refers to 7, and a property store at 14
/// for a second field, in the box at 18. A gap at 20; in its dead words a store stood at 22.
pub(crate) const CELLS: &str = "0 3 7 10 14 18";

pub(crate) const WORDS: &str =
    "6 13 2 14 2 29 4 34 3 3 70 57 3 29 14 2 73 7 22 13 30 2028 14 2 29 73";

/// A property store is made for the cell at 7, and a field put there. The words of the new store are
/// those of a dead one, which refers to cells that the mutator is not sure of.
const STORE_MADE: &str = "\
slot 8 89 -> stops at 0
then new 22 -> mine [22]; sure []; owed []; open [22]
then own 22 14; own 23 4 -> open [22]
then slot 24 7 -> open [22]
then slot 25 7 -> open []
then slot 26 7; slot 27 7 -> owed []; open []
then slot 8 89 -> owed [22]; open []
then shade 22 -> sure [22]; owed []; grey []; open []
then slot 24 1 -> owed [0]; open [22]
then shade 0 -> sure [22, 0]; owed []; grey [0]; open []
then head 7 78 -> stops at 0
then lay 19 1; head 7 78 -> mine [22]; owed []; open []; \
    page [6, 13, 2, 14, 2, 29, 4, 78, 89, 3, 70, 57, 3, 29, 14, 2, 73, 7, 22, 13, 30, 2028, 14, 4, 1, 7, 7, 7]";

/// A slot of the cell at 10 holds a small integer, and then a wide one. Behind that it is raw: also the
/// bits of a reference are just a number there.
const SMALL_TO_WIDE: &str = "\
slot 13 4 -> owed []; open []
then own 13 5000000000 -> stops at 0
then head 10 74 -> stops at 0
then blacken 10 -> mine [10]; sure [14]; owed [14]; open []
then shade 14 -> owed []; grey [14]; open []
then own 13 5000000000 -> open []
then head 10 74 -> stops at 0
then own 10 74 -> mine [10]; sure [14]; owed []; open []
then own 13 73 -> open []";

/// The first of two fields of the cell at 10 is deleted, while a helper reads the cell. The second is
/// wide: its integer becomes raw in the slot, where its bits are those of a reference to 3 until the
/// header tells.
const FIELD_DELETED: &str = "\
lend; shade 10; header 0 10; layout 0 -> sure [10]; owed []; grey [10]; open []
then own 16 7 -> stops at 0
then blacken 10 -> mine [10]; sure [10, 14, 7]; owed [14, 7]; grey []; open []
then shade 14; shade 7 -> owed []; grey [14, 7]; open []
then load 0 1 -> visit []
then blacken 14 -> mine [10, 14]; sure [10, 14, 7, 18]; owed [18]; grey [7]; open []
then shade 18 -> owed []; grey [7, 18]; open []
then own 13 13 -> owed []; open [10]
then load 0 3; load 0 2 -> open [10]
then own 16 7 -> open [10]
then own 10 74 -> owed []; open []; \
    page [6, 13, 2, 14, 2, 29, 4, 34, 3, 3, 74, 57, 3, 13, 14, 2, 7, 7, 22, 13, 30, 2028, 14, 2, 29, 73, 0, 0]
then settle 0 -> visit []; last 70 3; slot 1 57; log [Loaded { at: 10 }, Coloured { at: 10, found: 2 }]
then return 0 -> owed []; grey [7, 18]; out false; open []";

/// The first element of the list goes, while a helper reads the store. Its capacity was 2: the word is
/// the header of the new start, and until then no cell is read there.
const LEFT_TRIM: &str = "\
lend; shade 3; header 0 3; layout 0; length 0 -> sure [3]; owed []; open []
then new 4 -> stops at 0
then own 4 14 -> stops at 0
then blacken 3 -> mine [3]; sure [3, 7]; owed [7]; grey []; open []
then shade 7 -> owed []; grey [7]; open []
then new 4 -> mine [3, 4]; owed []; open [4]
then own 4 14 -> open [3, 4]
then own 5 1 -> open [3]
then load 0 2; load 0 3 -> open [3]
then slot 1 17 -> owed [4]; open [3]
then shade 4 -> sure [3, 7, 4]; owed []; grey [7]; open [3]
then own 2 1 -> open [3]
then head 3 26 -> stops at 0
then own 3 26 -> mine [3, 4]; owed []; open []; \
    page [6, 17, 1, 26, 14, 1, 4, 34, 3, 3, 70, 57, 3, 29, 14, 2, 73, 7, 22, 13, 30, 2028, 14, 2, 29, 73, 0, 0]
then settle 0 -> visit []; last 14 2; slot 2 1; log [Loaded { at: 3 }, Coloured { at: 3, found: 2 }]
then return 0 -> owed []; out false; open []";

/// All elements of the list go. The words behind the store are a gap.
const RIGHT_TRIM: &str = "\
own 4 0 -> stops at 0
then own 5 30 -> stops at 0
then blacken 3 -> mine [3]; sure [7]; owed [7]; open []
then shade 7 -> owed []; grey [7]; open []
then own 4 0 -> open []
then own 2 0 -> open []
then own 6 2; own 5 30 -> mine [3]; sure [7]; owed []; open []; \
    page [6, 13, 0, 14, 0, 30, 2, 34, 3, 3, 70, 57, 3, 29, 14, 2, 73, 7, 22, 13, 30, 2028, 14, 2, 29, 73, 0, 0]";

/// A third element, the cell at 10, is put last: the list gets a store of 4 slots, filled with the old
/// ones.
const STORE_GROWN: &str = "\
new 22 -> mine [22]; owed []; open [22]
then own 22 14; own 23 4 -> open [22]
then slot 24 29 -> owed [7]; open [22]
then shade 7 -> sure [7]; owed []; grey [7]; open [22]
then slot 25 4 -> owed []; open []
then slot 26 41 -> owed [10]; open [22]
then shade 10 -> sure [7, 10]; owed []; open []
then slot 27 7 -> owed []; open []
then slot 1 89 -> owed [22]; open []
then shade 22 -> sure [7, 10, 22]; owed []; grey [7, 10]; open []
then own 2 3 -> mine [22]; owed []; open []; \
    page [6, 89, 3, 14, 2, 29, 4, 34, 3, 3, 70, 57, 3, 29, 14, 2, 73, 7, 22, 13, 30, 2028, 14, 4, 29, 4, 41, 7]";

/// From the world that other runs begin with: a raw slot is tagged when its target is sure, and not
/// before. A tagged slot is raw in a cell that the mutator made black, and in no other.
pub(crate) const SHAPES: &str = "\
lend; shade 15; header 0 15; layout 0; slot 18 13; shade 3; head 15 70; load 0 1; load 0 2; settle 0 -> \
    last 74 2; slot 1 3
lend; shade 15; header 0 15; layout 0; slot 18 13; head 15 70; load 0 1; load 0 2; settle 0 -> stops at 5
lend; shade 19; header 0 19; layout 0; blacken 19; own 22 5000000000; own 19 74; \
    load 0 1; load 0 2; load 0 3; settle 0 -> \
    colours [0, 0, 0, 0, 0, 0, 0, 0, 0, 0, 0, 0, 0, 0, 0, 0, 0, 0, 0, 2]; \
    visit []; log [Loaded { at: 19 }, Coloured { at: 19, found: 2 }]
lend; shade 19; header 0 19; layout 0; own 22 5000000000 -> stops at 4";

/// A store is trimmed from the left. A new cell lies in no other.
pub(crate) const TRIM: &str = "\
shade 5; blacken 8; shade 12; new 9; own 9 14; own 10 1; slot 6 37; shade 9; own 7 1; own 8 26 -> \
    words [6, 13, 0, 14, 0, 6, 37, 1, 26, 14, 1, 3, 34, 3, 3, 74, 3, 3, 5000000000, 70]; \
    mine [8, 9]; sure [5, 12, 9]; owed []
new 9 -> stops at 0";

/// The six changes, each from the same world.
pub(crate) const ROWS: [&str; 6] = [
    STORE_MADE,
    SMALL_TO_WIDE,
    FIELD_DELETED,
    LEFT_TRIM,
    RIGHT_TRIM,
    STORE_GROWN,
];
