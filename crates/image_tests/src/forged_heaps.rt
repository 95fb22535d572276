//! Worked heaps and what is forged of them: the changes, what the heap has with them, and the verdict of a check.
use crate::images::Change::{Survivors, Used, Word};
use crate::images::Worked;
use crate::whole_heaps::Case;
use crate::whole_heaps::Verdict::*;
use crate::worked::{APART, BESIDE, ENTRY, FREE, LISTS, MIXED, PROBED, RAW, SMALL, USUAL};

pub(crate) const CASES: [(&Worked, &[Case]); 10] = [
    (
        &USUAL,
        &[
            (&[], "an object with a field", Whole),
            (&[Word(188_435, 0)], "no layout word of its shape", NoRows),
            (&[Word(131_072, 0)], "no header in eden", NoRows),
            (&[Word(0, 0)], "no gap in a page", NoRows),
            (&[Word(131_077, 1)], "a word behind the used ones", NoRows),
            (&[Word(139_263, 1)], "a word at the end of eden", NoRows),
            (&[Word(139_264, 1)], "no cell in a segment", NoRows),
            (
                &[Word(188_416, 5)],
                "a variable that holds no value",
                Flawed,
            ),
            (&[Word(188_417, 1)], "a second root word", Flawed),
            (&[Word(131_075, 4)], "another integer", Whole),
            (&[Word(131_072, 21_474_836_550)], "another number", Whole),
            (&[Word(131_076, 2)], "a hole with a value", Flawed),
            (&[Word(131_073, 524_289)], "the object as its store", Flawed),
            (
                &[Word(131_074, 524_289)],
                "the object as its prototype",
                Whole,
            ),
            (&[Word(131_074, 2)], "an integer as its prototype", Flawed),
            (&[Word(131_074, 1)], "a gap as its prototype", Flawed),
            (
                &[Word(131_075, 3)],
                "a small field that is undefined",
                Flawed,
            ),
            (
                &[Word(131_075, 524_289)],
                "a small field with the object",
                Flawed,
            ),
            (
                &[Word(131_072, 42)],
                "the shape of a path of no field",
                Flawed,
            ),
            (&[Word(0, 4_294_967_326)], "a gap with a number", Flawed),
        ],
    ),
    (
        &SMALL,
        &[
            (&[], "a list, its store, and a box that survived", Whole),
            (&[Word(0, 0)], "no gap in the page", NoRows),
            (&[Word(1, 2_047)], "a gap that is a word short", NoRows),
            (&[Word(2_052, 5)], "a store that is a slot longer", NoRows),
            (&[Word(2_060, 7)], "a word behind the used ones", NoRows),
            (&[Word(2_176, 0)], "no header of the survivor", NoRows),
            (&[Word(2_178, 1)], "no cell behind the survivor", NoRows),
            (
                &[Word(2_179, 1)],
                "a word further behind the survivor",
                NoRows,
            ),
            (
                &[Word(2_240, 8_205)],
                "a variable that holds a store",
                Flawed,
            ),
            (&[Word(2_240, 8_705)], "a variable that holds a box", Flawed),
            (
                &[Word(2_240, 8_197)],
                "a variable that holds no cell",
                Flawed,
            ),
            (&[Word(2_250, 0)], "no layout word of shape 8", NoRows),
            (&[Word(10_441, 1)], "a layout word of no shape", NoRows),
            (
                &[Word(2_240, 8_229)],
                "the second cell of the number",
                Whole,
            ),
            (&[Survivors(1)], "a survivor word less", NoRows),
            (&[Survivors(3)], "a survivor word more", NoRows),
            (&[Used(9)], "a used cell less", NoRows),
            (&[Used(63)], "more than the young generation has", NoRows),
        ],
    ),
    (
        &BESIDE,
        &[
            (&[], "a wide field in a box", Whole),
            (
                &[Word(2_053, 9_223_372_036_854_775_808)],
                "a raw word beside",
                Flawed,
            ),
            (&[Word(2_053, 2)], "a small integer beside", Flawed),
            (&[Word(2_053, 8_193)], "the object itself beside", Flawed),
            (&[Word(2_049, 3)], "no store", Flawed),
        ],
    ),
    (
        &RAW,
        &[(&[], "a wide field that is raw in the object", Whole)],
    ),
    (
        &LISTS,
        &[
            (&[], "a list with a box and 2", Whole),
            (&[Word(2_054, 3)], "an element that is undefined", Whole),
            (
                &[Word(2_062, 8_193)],
                "an object in the unnamed store",
                Whole,
            ),
            (&[Word(2_062, 7)], "a hole in the unnamed store", Whole),
            (&[Word(2_050, 3)], "a length that is too great", Flawed),
            (&[Word(2_050, 1)], "a length that is too small", Flawed),
            (&[Word(2_050, 5)], "a length that the store lacks", Flawed),
            (&[Word(2_055, 2)], "a value behind the last element", Flawed),
            (&[Word(2_054, 8_205)], "the store as its element", Flawed),
            (&[Word(2_049, 3)], "no store", Flawed),
            (&[Word(2_058, 8_193)], "a list as a store", Flawed),
            (&[Word(2_177, 5)], "a small integer in the box", Flawed),
            (&[Word(2_176, 4_294_967_318)], "a box with a number", Flawed),
            (
                &[Word(2_051, 4_294_967_310)],
                "a store with a number",
                Flawed,
            ),
            (
                &[Word(2_062, 9_223_372_036_854_775_808)],
                "a raw word",
                Flawed,
            ),
            (&[Word(2_062, 8_197)], "a reference to no cell", Flawed),
        ],
    ),
    (
        &ENTRY,
        &[
            (&[], "an entry at its home", Whole),
            (&[Word(2_056, 3)], "a value that is undefined", Whole),
            (
                &[Word(2_057, 21_474_836_486)],
                "a number of that home",
                Whole,
            ),
            (&[Word(2_050, 0)], "a count that is too small", Flawed),
            (&[Word(2_050, 2)], "a count that is too great", Flawed),
            (
                &[Word(2_057, 8_589_934_598)],
                "a number of the other home",
                Flawed,
            ),
            (&[Word(2_055, 7)], "a value without a key", Flawed),
            (&[Word(2_056, 7)], "a key without a value", Flawed),
            (&[Word(2_053, 3)], "half of a free pair", Flawed),
            (&[Word(2_055, 8_705)], "a box as a key", Flawed),
            (&[Word(2_055, 2)], "a small integer as a key", Flawed),
            (&[Word(2_049, 3)], "no table", Flawed),
            (&[Word(2_049, 8_229)], "a list as a table", Flawed),
        ],
    ),
    (
        &PROBED,
        &[
            (&[], "an entry past the end, at the first place", Whole),
            (
                &[Word(2_064, 17_179_869_190)],
                "the number 4 at its home",
                Whole,
            ),
            (
                &[Word(2_064, 25_769_803_782)],
                "a free place before it",
                Flawed,
            ),
        ],
    ),
    (
        &FREE,
        &[
            (&[], "a free table of 4 pairs", Whole),
            (
                &[Word(2_052, 0), Word(2_053, 14), Word(2_054, 6)],
                "a table of no pair, and a store behind it",
                Flawed,
            ),
            (
                &[Word(2_052, 1), Word(2_055, 14), Word(2_056, 4)],
                "a table of 1 pair, and a store behind it",
                Whole,
            ),
            (
                &[Word(2_052, 2), Word(2_057, 14), Word(2_058, 2)],
                "a table of 2 pairs, and a store behind it",
                Whole,
            ),
            (
                &[Word(2_052, 3), Word(2_059, 14), Word(2_060, 0)],
                "a table of 3 pairs, and a store behind it",
                Flawed,
            ),
        ],
    ),
    (
        &APART,
        &[
            (&[], "one owner each", Whole),
            (&[Word(2_052, 8_281)], "two fields of one object", Flawed),
            (
                &[Word(2_056, 8_281)],
                "two objects, one of them dead",
                Flawed,
            ),
            (&[Word(2_080, 8_281)], "a field and an element", Flawed),
            (
                &[Word(2_057, 8_353)],
                "a field and an entry's value",
                Flawed,
            ),
            (
                &[Word(2_085, 8_305)],
                "an element and an entry's value",
                Flawed,
            ),
            (
                &[Word(2_062, 8_313), Word(2_063, 2)],
                "two lists of one store",
                Flawed,
            ),
            (
                &[Word(2_068, 8_329), Word(2_069, 1)],
                "two maps of one table",
                Flawed,
            ),
            (
                &[Word(2_057, 8_313)],
                "a store that is a field's value",
                Flawed,
            ),
            (&[Word(2_081, 8_313)], "a store in a slot of itself", Flawed),
            (&[Word(2_240, 11)], "no variable bound", Whole),
            (
                &[Word(2_240, 11), Word(2_056, 8_281)],
                "two dead fields",
                Flawed,
            ),
            (
                &[Word(2_240, 11), Word(2_062, 8_313), Word(2_063, 2)],
                "two dead lists of one store",
                Flawed,
            ),
            (
                &[Word(2_240, 11), Word(2_068, 8_329), Word(2_069, 1)],
                "two dead maps of one table",
                Flawed,
            ),
            (&[Word(2_052, 2)], "a box without an owner", Whole),
            (&[Word(2_057, 8_193)], "two references to an object", Whole),
            (
                &[Word(2_062, 8_193)],
                "an object as the store of a list",
                Flawed,
            ),
            (
                &[Word(2_089, 8_281)],
                "an integer that reads as a reference",
                Flawed,
            ),
            (
                &[Word(2_089, 8_281), Word(2_075, 14), Word(2_062, 8_301)],
                "words of a box that read as a store",
                Flawed,
            ),
        ],
    ),
    (&MIXED, &[(&[], "objects of each kind", Whole)]),
];
