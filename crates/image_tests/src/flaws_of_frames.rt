//! Images whose sizes, rows of cells, survivors or roots are forged, and the first flaw of each.
use crate::first_flaws::Group;
use crate::images::Change::{Survivors, Used, Word, Words};
use crate::worked::{SMALL, USUAL};
use crate::worked_ends::{BARE, SPREAD};

/// How many words are used, how many there are, and the layout words.
pub(crate) const SIZES: [Group; 4] = [
    (&USUAL, &[(&[Word(188_435, 0)], "188435 0 289")]),
    (
        &SMALL,
        &[
            (&[Used(65), Word(0, 0)], "12554 65 64"),
            (&[Word(2_250, 0)], "2250 0 1"),
            (&[Word(10_441, 1)], "10441 1 0"),
        ],
    ),
    (
        &SPREAD,
        &[
            (&[Used(4_294_967_295)], "20878 4294967295 64"),
            (&[Words(14_669)], "20878 14669 14670"),
            (&[Words(14_671)], "20878 14671 14670"),
            (&[Words(0)], "20878 0 14670"),
            // The shapes 0, 1, 7, 8 and 23: one unused, the first and the last fixed one, the first path, the next
            // unused one.
            (&[Word(6_470, 1)], "6470 1 0"),
            (&[Word(6_471, 3)], "6471 3 2"),
            (&[Word(6_477, 9)], "6477 9 8"),
            (&[Word(6_478, 4_294_967_297)], "6478 4294967297 1"),
            (&[Word(6_493, 17)], "6493 17 0"),
            // The last path comes before the last shape.
            (&[Word(14_669, 1), Word(6_492, 4_370)], "6492 4370 4369"),
        ],
    ),
    // With no variable the layout words come directly behind the segments.
    (&BARE, &[(&[Word(2_240, 1)], "2240 1 0")]),
];

/// The rows of cells in pages, eden and segments, and the words behind them.
pub(crate) const ROWS: [Group; 4] = [
    (
        &USUAL,
        &[
            (&[Word(131_072, 0)], "131072 0 26"),
            (&[Word(131_077, 1)], "131077 1 0"),
            (&[Word(139_263, 1)], "139263 1 0"),
            (&[Word(139_264, 1)], "139264 1 26"),
            (&[Word(0, 0)], "0 0 26"),
            // A check that skips the last page, or stops at the first one, finds nothing here.
            (&[Word(129_024, 0)], "129024 0 26"),
        ],
    ),
    (
        &SMALL,
        &[
            (&[], "objects 2 entries 0"),
            (&[Word(1, 2_047)], "2047 0 26"),
            (&[Word(2_052, 5)], "2058 3 26"),
            (&[Word(2_060, 7)], "2060 7 0"),
            (&[Word(2_176, 0)], "2177 5 0"),
            (&[Word(2_178, 1)], "2178 1 26"),
            (&[Word(2_179, 1)], "2179 1 0"),
            (&[Used(9)], "2057 6 0"),
            (&[Used(63)], "2060 0 26"),
        ],
    ),
    (
        &SPREAD,
        &[
            // The last word of each page, and a cell that goes on into the next page.
            (&[Word(13, 2_035)], "2047 1073741824 26"),
            (&[Word(13, 2_035), Word(2_047, 22)], "2047 22 26"),
            (&[Word(2_046, 6)], "2046 6 26"),
            (&[Word(2_049, 2_047)], "4095 0 26"),
            (&[Word(2_049, 2_049)], "2048 30 26"),
            (&[Word(4_105, 2_039)], "6143 1073741824 26"),
            (&[Word(4_096, 0), Word(0, 0)], "0 0 26"),
            // No header: another class, a bit over the shape; the unused shapes 0, 23 and 8,199, and none, 8,200.
            (&[Word(4_104, 31)], "4104 31 26"),
            (&[Word(4_104, 262_174)], "4104 262174 26"),
            (&[Word(4_104, 2)], "4104 2 26"),
            (&[Word(4_104, 94)], "4104 94 26"),
            (&[Word(4_104, 32_798)], "4104 32798 26"),
            (&[Word(4_104, 32_802)], "4104 32802 26"),
            // A gap of 1 word, and lengths or sizes of more than 32 or 64 bits, whose lowest bits would do.
            (&[Word(4_105, 1)], "4104 30 26"),
            (&[Word(4_105, 4_294_969_334)], "4104 30 26"),
            (&[Word(4_100, u64::MAX)], "4099 14 26"),
            (&[Word(6_148, (1 << 63) + 4)], "6147 18 26"),
            // Eden: a cell goes past the used words; the last used word.
            (&[Used(19)], "6160 17179869274 26"),
            (&[Word(6_164, 0)], "6164 0 26"),
            // Segments: the first word of the first, the last words of the first and the last, a cell in another.
            (&[Word(6_208, 0)], "6209 1073741824 0"),
            (&[Word(6_271, 1)], "6271 1 0"),
            (&[Word(6_336, 1)], "6336 1 26"),
            (&[Word(6_463, 1)], "6463 1 0"),
            // A word behind a row of a lower address, and a row of a lower address.
            (&[Word(6_207, 1), Word(6_272, 1)], "6207 1 0"),
            (&[Word(6_207, 1), Word(4_096, 0)], "4096 0 26"),
        ],
    ),
    (
        &BARE,
        &[
            (&[], "objects 0 entries 0"),
            // Eden is used to its last word; a cell goes past it; the last word is no cell.
            (
                &[Used(64), Word(2_048, 30), Word(2_049, 64)],
                "objects 0 entries 0",
            ),
            (&[Used(64), Word(2_048, 30), Word(2_049, 65)], "2048 30 26"),
            (&[Used(64), Word(2_048, 30), Word(2_049, 63)], "2111 0 26"),
            // Each segment is used to its last word, and a cell goes past that.
            (
                &[Survivors(64), Word(2_112, 30), Word(2_113, 64)],
                "objects 0 entries 0",
            ),
            (&[Word(2_112, 30), Word(2_113, 65)], "2112 30 26"),
            (
                &[Survivors(64), Word(2_176, 30), Word(2_177, 64)],
                "objects 0 entries 0",
            ),
            (&[Word(2_176, 30), Word(2_177, 65)], "2176 30 26"),
            (&[Word(2_175, 26)], "2175 26 0"),
        ],
    ),
];

/// How many words the survivors have.
pub(crate) const SURVIVORS: [Group; 3] = [
    (
        &SMALL,
        &[
            (&[Survivors(1)], "12554 1 2"),
            (&[Survivors(3)], "12554 3 2"),
        ],
    ),
    (
        &SPREAD,
        &[
            // Those of the first half alone, and of the second; a filler in a segment is a survivor's word.
            (&[Survivors(2)], "20878 2 18"),
            (&[Survivors(16)], "20878 16 18"),
            (&[Survivors(u32::MAX)], "20878 4294967295 18"),
            (&[Word(6_272, 26)], "20878 18 19"),
            // As many as the young generation has beside the used words, and one more.
            (
                &[Survivors(43), Word(6_272, 30), Word(6_273, 25)],
                "objects 7 entries 3",
            ),
            (
                &[Survivors(44), Word(6_272, 30), Word(6_273, 26)],
                "20878 44 43",
            ),
        ],
    ),
    (
        &BARE,
        &[(
            &[
                Survivors(64),
                Word(2_112, 30),
                Word(2_113, 64),
                Used(1),
                Word(2_048, 26),
            ],
            "12552 64 63",
        )],
    ),
];

/// What the variables hold.
pub(crate) const ROOTS: [Group; 3] = [
    (
        &USUAL,
        &[
            (&[Word(188_416, 5)], "188416 5 11"),
            (&[Word(188_417, 1)], "188417 1 0"),
        ],
    ),
    (
        &SMALL,
        &[
            (&[Word(2_240, 8_205)], "2240 8205 11"),
            (&[Word(2_240, 8_705)], "2240 8705 11"),
            (&[Word(2_240, 8_197)], "2240 8197 11"),
            // An integer that is not small stands behind `wide`, and a small one does not.
            (
                &[Word(2_240, 15), Word(2_241, 1 << 62)],
                "objects 2 entries 0",
            ),
            (&[Word(2_240, 15), Word(2_241, 5)], "2240 15 11"),
        ],
    ),
    (
        &SPREAD,
        &[
            // A check that stops at the first variable finds nothing in the last one's two words.
            (&[Word(6_468, 5)], "6468 5 11"),
            (&[Word(6_469, 1)], "6469 1 0"),
            (&[Word(6_465, 1), Word(6_468, 5)], "6465 1 0"),
            (&[Word(6_464, 5), Word(6_465, 1)], "6464 5 11"),
            // A weak map may be held, as any object.
            (&[Word(6_464, 25_601)], "objects 7 entries 3"),
            // Beside a small integer, beside nothing bound and beside `undefined` stands 0.
            (&[Word(6_464, 2), Word(6_465, 2)], "6465 2 0"),
            (&[Word(6_464, 11), Word(6_465, 1)], "6465 1 0"),
            (
                &[Word(6_464, 3), Word(6_465, 1 << 40)],
                "6465 1099511627776 0",
            ),
            // A hole and an unknown odd value; a gap, a filler and a table.
            (&[Word(6_468, 7)], "6468 7 11"),
            (&[Word(6_468, 19)], "6468 19 11"),
            (&[Word(6_468, 49)], "6468 49 11"),
            (&[Word(6_468, 24_657)], "6468 24657 11"),
            (&[Word(6_468, 24_589)], "6468 24589 11"),
            // Words in a gap that read as a list.
            (&[Word(14, 6), Word(15, 3), Word(6_468, 57)], "6468 57 11"),
            // References to 14,670, to the last address of 32 bits, and past that.
            (&[Word(6_468, 58_681)], "6468 58681 11"),
            (&[Word(6_468, 17_179_869_181)], "6468 17179869181 11"),
            (&[Word(6_468, 17_179_869_185)], "6468 17179869185 11"),
            // The least and the greatest integers that are small, and those that are wide.
            (
                &[
                    Word(6_464, 11),
                    Word(6_466, 2_147_483_646),
                    Word(6_467, 0),
                    Word(6_468, 18_446_744_071_562_067_968),
                ],
                "objects 7 entries 3",
            ),
            (&[Word(6_468, 2_147_483_648)], "6468 2147483648 11"),
            (
                &[Word(6_468, 18_446_744_071_562_067_966)],
                "6468 18446744071562067966 11",
            ),
            (
                &[
                    Word(6_464, 3),
                    Word(6_467, 1_073_741_824),
                    Word(6_468, 15),
                    Word(6_469, 18_446_744_072_635_809_791),
                ],
                "objects 7 entries 3",
            ),
            (&[Word(6_467, 1_073_741_823)], "6466 15 11"),
            (&[Word(6_467, 18_446_744_072_635_809_792)], "6466 15 11"),
        ],
    ),
];
