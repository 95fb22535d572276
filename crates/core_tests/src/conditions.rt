//! Rows on both sides of conditions of events: one where an event is just possible, and one where it
//! is just not. On most of these conditions no law rests, so that nothing else would tell a slip.

use crate::scavenging::Start;

/// What a slot may hold: a small integer, a reference, undefined, the hole. A place that there is, and
/// no header or length of a cell.
const SLOTS: &str = "\
slot 6 2147483646 -> owed []
slot 6 2147483648 -> stops at 0
slot 6 18446744071562067968 -> owed []
slot 6 18446744071562067966 -> stops at 0
slot 6 17179869181 -> owed []
slot 6 17179869185 -> stops at 0
slot 6 3 -> owed []
slot 6 7 -> owed []
slot 6 11 -> stops at 0
slot 6 15 -> stops at 0
slot 6 74 -> owed []
slot 6 13 -> owed [3]
slot 6 17 -> stops at 0
slot 2047 2 -> owed []
slot 2048 2 -> stops at 0
slot 8 2 -> stops at 0
slot 9 2 -> stops at 0
slot 10 2 -> owed []
blacken 8; slot 9 2 -> owed [12]";

/// Which word a new layout may be, and for a shape without one. A table asks for no length.
const LAYOUTS: &str = "\
lay 9 545 -> seats 0
lay 9 801 -> stops at 0
lay 9 8737 -> seats 0
lay 9 16929 -> stops at 0
lay 9 129 -> seats 0
lay 9 145 -> stops at 0
lay 9 8 -> seats 0
lay 9 9 -> stops at 0
lay 9 0 -> stops at 0
lay 9 18 -> stops at 0
lay 9 1048577 -> stops at 0
lay 9 1; lay 9 1 -> stops at 1";

/// Where a cell may be new: in the pages, and in no cell that the mutator has not made black. Where a
/// header changes: at such a cell, or in none; to one of a plain cell of this object and cap.
const PLACES: &str = "\
new 23 -> mine [23]
new 19 -> stops at 0
new 22 -> stops at 0
blacken 19; new 22 -> mine [19, 22]
new 2047 -> mine [2047]
new 2048 -> stops at 0
own 22 5 -> stops at 0
own 21 5 -> stops at 0
own 20 5 -> stops at 0
own 18 5 -> owed []
own 15 74 -> stops at 0
own 7 5 -> owed []
own 9 2 -> stops at 0
head 19 70 -> owed []
head 19 4294967366 -> stops at 0
head 19 34 -> stops at 0
head 12 6 -> stops at 0
head 5 6 -> stops at 0
slot 10 34; head 10 34 -> stops at 1
slot 10 34; blacken 8; head 10 34 -> mine [8]
own 30 34; head 30 34 -> owed []
own 30 34; head 30 6 -> stops at 1
own 30 6; head 30 34 -> stops at 1
head 2048 34 -> stops at 0";

/// What a helper reads, once each: a layout word behind its header, a length if the layout asks for
/// one, and then the tagged slots.
const READINGS: &str = "\
return 0 -> stops at 0
lend; return 1 -> stops at 1
lend; return 0 -> out false; seats 1
lend; return 0; return 0 -> stops at 2
lend; lend; lend; lend; lend; lend; lend; return 3; lend -> seats 8
lend; lend; lend; lend; lend; lend; lend; return 3; lend; lend -> stops at 9
lend; layout 0 -> stops at 1
lend; shade 0; header 0 0; load 0 1 -> stops at 3
lend; shade 0; header 0 0; layout 0; layout 0 -> stops at 4
lend; shade 0; header 0 0; layout 0; length 0 -> stops at 4
lend; shade 0; header 0 0; layout 0; load 0 2 -> stops at 4
lend; shade 0; header 0 0; layout 0; load 0 0 -> stops at 4
lend; shade 0; header 0 0; layout 0; load 0 1; load 0 1 -> stops at 5
lend; shade 0; header 0 0; layout 0; load 0 1; settle 0 -> visit [3]
lend; shade 8; header 0 8; length 0 -> stops at 3
lend; shade 8; header 0 8; layout 0; load 0 2 -> stops at 4
lend; shade 8; header 0 8; layout 0; settle 0 -> stops at 4
lend; shade 8; header 0 8; layout 0; length 0; length 0 -> stops at 5
lend; shade 8; header 0 8; layout 0; length 0; load 0 1 -> stops at 5
lend; shade 8; header 0 8; layout 0; length 0; load 0 4 -> stops at 5
lend; shade 8; header 0 8; layout 0; length 0; load 0 3; load 0 2; settle 0 -> visit [12]; slot 3 3
lend; shade 8; header 0 8; layout 0; length 0; load 0 3; load 0 3 -> stops at 6
lend; shade 8; header 0 8; layout 0; length 0; load 0 3; settle 0 -> stops at 6
lend; shade 19; header 0 19; layout 0; load 0 1; load 0 3; settle 0 -> stops at 6
lend; shade 19; header 0 19; layout 0; load 0 1; load 0 3; load 0 2; settle 0 -> visit [3]; last 70 3
lend; header 0 0 -> stops at 1
lend; shade 0; header 0 0; header 0 0 -> stops at 3
lend; shade 0; header 0 0; layout 0; load 0 1; settle 0; header 0 0 -> stops at 6
lend; shade 0; header 0 0; layout 0; load 0 1; settle 0; visit 0 3; header 0 3 -> visit []; out true
take_main 63; take_main 64 -> stops at 1";

/// A table of one pair at 0, whose length marking does not ask for; at 4 and 5 headers of the last
/// shape that there may be, which has no layout, and of the shape behind it.
pub(crate) const ODD: &str = "18 1 13 13 32798 32802";

pub(crate) const ODD_CELLS: &str = "0 4 5 2046 2047";

/// A header that names no cell is all that is read of one. That is settled at once.
pub(crate) const NAMELESS: &str = "\
lend; shade 0; header 0 0; layout 0; length 0 -> stops at 4
lend; shade 0; header 0 0; layout 0; load 0 2 -> stops at 4
lend; shade 0; header 0 0; layout 0; settle 0 -> visit []; last 18 0
lend; shade 4; header 0 4; settle 0 -> stops at 3
lend; shade 4; header 0 4; layout 0; settle 0 -> visit []; last 32798 0
lend; shade 5; header 0 5; layout 0 -> stops at 3
lend; shade 5; header 0 5; settle 0 -> visit []; last 32802 0
own 2046 14; lend; shade 2046; header 0 2046; layout 0; length 0; settle 0 -> visit []; last 14 0
own 2046 14; lend; shade 2046; header 0 2046; layout 0; settle 0 -> stops at 5
own 2047 14; lend; shade 2047; header 0 2047; layout 0; length 0 -> stops at 5
own 2047 14; lend; shade 2047; header 0 2047; layout 0; settle 0 -> visit []; last 14 0";

/// The ends of the board, of the words, of the shapes and of the seats.
const ENDS: &str = "\
shade 0; give_main 63 0 -> grey []
shade 0; give_main 64 0 -> stops at 1
take_main 63 -> seats 0
take_main 64 -> stops at 0
own 2047 5 -> seats 0
own 2048 5 -> stops at 0
lay 8199 1 -> seats 0
lay 8200 1 -> stops at 0
lay 7 1 -> stops at 0
look -> words [6, 13, 0, 14, 0, 6, 33, 2, 14, 2, 49, 3, 34, 3, 3, 74, 3, 3, 5000000000, 70]; seats 0
lend; lend; lend; lend; lend; lend; lend -> seats 7
lend; lend; lend; lend; lend; lend; lend; lend -> stops at 7";

/// A list at 0, and its store at 3 with a length past the page.
pub(crate) const LONG: &str = "6 13 0 14 18446744073709551615";

/// Such a length names no cell: no slot is to be read, and the cell turns black.
pub(crate) const LENGTHS: &str = "\
lend; shade 3; header 0 3; layout 0; length 0; load 0 2 -> stops at 5
lend; shade 3; header 0 3; layout 0; length 0; settle 0 -> \
    colours [0, 0, 0, 2, 0, 0, 0, 0, 0, 0, 0, 0, 0, 0, 0, 0, 0, 0, 0, 0]";

/// Two boxes with the same words, a slot for each, and a room.
pub(crate) const BOXES: Start<'static> = Start {
    words: "22 77 22 77 1 9 0 0 0 0 0 0",
    layouts: "0 2 3 4 5 6",
    cells: "0 2",
    slots: "4 5",
    rooms: "room 0 6 12",
};

/// The first is copied, and the second was read.
pub(crate) const COPIED: &str =
    "lend; load 0 4; header 0; body 0; copy 0 6 22; copy 0 7 77; forward 0 6; \
    redirect 0; load 0 5; header 0; body 0; ";

/// The copy of the second is beside that of the first, also where the words are the same. A header is
/// read once, and a seat that was taken back takes nothing.
pub(crate) const ROOMS: &str = "\
forward 0 6 -> stops at 11
copy 0 8 22; copy 0 9 77; forward 0 8 -> homes 2
copy 0 8 22; copy 0 9 77; forward 0 7 -> stops at 13
copy 0 10 22; copy 0 11 77; forward 0 10 -> homes 2
copy 0 11 22; copy 0 12 77 -> stops at 12
copy 0 8 22; copy 0 9 78; forward 0 8 -> stops at 13
copy 0 7 22 -> stops at 11
copy 0 8 22; copy 0 9 77; forward 0 8; forward 0 8 -> stops at 14
header 0 -> stops at 11
body 0 -> stops at 11
take 0 0; return 0 -> out 0
return 0; take 0 0 -> stops at 12
return 0; give 0 0 6 -> stops at 12
give 0 0 6; return 0 -> todo 0 []; out 0
return 0; return 0 -> stops at 12
return 1 -> stops at 11";

/// A slot, and words of a room, are no places of the words.
pub(crate) const PAST: Start<'static> = Start {
    words: "6 0 0 0",
    layouts: "0 2",
    cells: "0",
    slots: "9",
    rooms: "room 0 2 6",
};

/// What is no place is not touched.
pub(crate) const NOWHERE: &str = "\
lend; load 0 9 -> stops at 1
lend; copy 0 5 1 -> stops at 1";

/// Those of marking, each row from the world that its runs begin with.
pub(crate) const OF_MARKING: [&str; 5] = [SLOTS, LAYOUTS, PLACES, READINGS, ENDS];
