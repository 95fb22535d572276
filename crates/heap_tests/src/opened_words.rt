//! Words of opened heaps, and what calls of the mutator's side make of them: tables that are written
//! out by hand.
use crate::opened_heaps::Act::*;
use crate::opened_heaps::Turn;
use handle_roots::Held;
use page_space::Sizes;
use tagged_word::Word;

/// The usual sizes with one variable: eden begins at 131,072, the segments at 139,264, the roots at
/// 188,416, and the layout words at 188,418; the marks begin at 196,618.
pub(crate) const USUAL: Sizes = Sizes {
    pages: 64,
    young: 8_192,
    helpers: 2,
};

/// The smallest sizes with one variable: eden begins at 2,048, the two segments at 2,112 and 2,176,
/// the roots at 2,240, and the layout words at 2,242; the marks begin at 10,442.
pub(crate) const SMALL: Sizes = Sizes {
    pages: 1,
    young: 64,
    helpers: 0,
};

pub(crate) const EDEN: u32 = 2_048;

const ROOTS: u32 = 2_240;

/// The words of an opened heap of the usual sizes, at some addresses.
pub(crate) const USUAL_WORDS: [(u32, u64); 11] = [
    (0, 30),
    (1, 2_048),
    (2, 0),
    (2_048, 30),
    (131_071, 0),
    (131_072, 0),
    (188_415, 0),
    (188_416, 0xb),
    (188_417, 0),
    (188_419, 2),
    (196_617, 0),
];

/// The words of an opened heap of the smallest sizes: gap, eden, segments, roots and layouts.
pub(crate) const SMALL_WORDS: [(u32, u64); 28] = [
    (0, 30),
    (1, 2_048),
    (2, 0),
    (2_047, 0),
    (2_048, 0),
    (2_112, 0),
    (2_176, 0),
    (2_240, 0xb),
    (2_241, 0),
    (2_242, 0),
    (2_243, 2),
    (2_244, 3),
    (2_245, 4),
    (2_246, 5),
    (2_247, 6),
    (2_248, 7),
    (2_249, 8),
    (2_250, 0x01),
    (2_251, 0x11),
    (2_252, 0x21),
    (2_253, 0x31),
    (2_254, 0x41),
    (2_255, 0x51),
    (2_256, 0x61),
    (2_257, 0x71),
    (2_258, 0x81),
    (2_259, 0),
    (10_441, 0),
];

/// A box, and behind it a store of three slots: the first comes to refer to the box, and both others
/// are copied from behind the store. Then the header of a box, a second box, and a variable.
pub(crate) const TURNS: [Turn; 12] = [
    (MakeBox(EDEN, 1 << 40), EDEN, &[22, 1 << 40, 0]),
    (Write(EDEN + 7, 10), EDEN + 6, &[0, 10, 0]),
    (Write(EDEN + 8, 12), EDEN + 6, &[0, 10, 12, 0]),
    (
        FillStore(EDEN + 2, 3),
        EDEN,
        &[22, 1 << 40, 14, 3, 7, 7, 7, 10],
    ),
    (
        Store(EDEN + 2, 2, 0x2001),
        EDEN + 2,
        &[14, 3, 0x2001, 7, 7, 10],
    ),
    (
        CopySlots(EDEN + 7, EDEN + 5, 2),
        EDEN + 4,
        &[0x2001, 10, 12, 10, 12],
    ),
    (BoxHeader(EDEN + 12), EDEN + 11, &[0, 22, 0]),
    (
        MakeBox(EDEN + 14, -1),
        EDEN + 13,
        &[0, 22, 0xffff_ffff_ffff_ffff, 0],
    ),
    (Hold(Held::Int(1 << 40)), ROOTS, &[0xf, 1 << 40]),
    (Hold(Held::Int(-5)), ROOTS, &[0xffff_ffff_ffff_fff6, 0]),
    (Hold(Held::Ref(5)), ROOTS, &[0x15, 0]),
    (Hold(Held::Undefined), ROOTS, &[3, 0]),
];

/// Words, whether they refer to boxes, and what they stand for.
pub(crate) const VALUES: [(Word, Option<(bool, Held)>); 5] = [
    (Word(10), Some((false, Held::Int(5)))),
    (Word(3), Some((false, Held::Undefined))),
    (Word(0x2001), Some((true, Held::Int(1 << 40)))),
    (Word(0x2039), Some((true, Held::Int(-1)))),
    (Word(0x15), Some((false, Held::Ref(5)))),
];

/// Values, and their words in the slot of a store: none where a value needs a box.
pub(crate) const SLOTS: [(Held, Option<Word>); 4] = [
    (Held::Int(5), Some(Word(10))),
    (Held::Int(1 << 40), None),
    (Held::Ref(EDEN), Some(Word(0x2001))),
    (Held::Undefined, Some(Word(3))),
];

/// Words that are asked for of eden, and where they stand; nowhere where eden has no room.
pub(crate) const RUNS: [(u32, Option<u32>); 5] = [
    (65, None),
    (40, Some(EDEN)),
    (25, None),
    (24, Some(EDEN + 40)),
    (1, None),
];
