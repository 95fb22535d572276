//! The words of the kept heap, by the description of cells.

use crate::runs::{SURE, came};
use std::alloc::Global;
use std::test::Fail;

/// The first word of eden, with 64 pages.
const EDEN: usize = 131_072;

/// The script, and the words of eden with the one behind them, which no cell uses. The second store of a list stands
/// behind the first one, and the box behind it; the box of an entry stands behind its table. A box is written again
/// where its element is the first one now, and a store without spare slots is followed by another one.
const CELLS: &str = "\
new x 2; set x a 1 | 70 3 3 2 7 0
list l; push l 1; push l 2; push l 3; push l 4 | 6 524301 4 14 4 2 4 6 8 0
list l; push l 1; push l 2; push l 3; push l 4; push l 5000000000 | \
6 524325 5 14 4 2 4 6 8 14 8 2 4 6 8 524365 7 7 7 22 5000000000 0
list l; push l 1; push l 2; push l 3; push l 4; shift l 1; shift l 2; trunc l 0 | 6 524313 0 26 30 2 14 0 26 0
list l; shift l 0; trunc l 0 | 6 3 0 0
list l; push l 1; push l 2; shift l 0; trunc l 2 | 6 524301 2 14 4 2 4 7 7 0
list l; push l 1; push l 2; shift l 2; push l 3 | 6 524309 1 30 2 14 2 6 7 0
list l; push l 1; push l 5000000000; shift l 1; put l 0 5000000001 | 6 524305 1 26 14 3 524325 7 7 22 5000000001 0
list l; push l 1; push l 2; trunc l 1; push l 3 | 6 524325 2 14 1 2 30 3 7 14 4 2 6 7 7 0
weak m; new k 0; wget y m k; wdel m k | 10 3 0 4294967330 3 3 0
weak m; new k 0; wput m k 1 | 10 524313 1 4294967330 3 3 18 4 7 7 524301 2 7 7 7 7 0
weak m; wput m m 5000000000; wput m m 5000000001 | \
10 524301 1 18 4 524289 524341 7 7 7 7 7 7 22 5000000001 0";

/// The words as text, with a blank before each.
fn text_of(alloc: Global, words: &[u64]) -> Result<String, Fail> {
    let mut text = String::new(alloc);
    for word in words {
        text.push_str(format!(in alloc; " {word}")?.as_str())?;
    }
    Ok(text)
}

#[test]
fn each_cell_has_the_words_of_its_description(rt: HostRuntime) -> Result<(), Fail> {
    for row in CELLS.lines() {
        let mut fields = row.split(" |");
        let seen = came(&rt, "run", fields.next().unwrap_or(""), SURE)?;
        let end = EDEN.saturating_add(seen.used).saturating_add(1);
        let cells = text_of(rt.alloc(), seen.words.get(EDEN..end).unwrap_or(&[]))?;
        assert_eq!(rt; Some(cells.as_str()), fields.next(), "{row}");
    }
    Ok(())
}

/// On a heap of 2,048 page words, 64 young words and no helper: a script, the first root word of its first variable,
/// the words from 2,112 on, where the halves begin, up to the one behind the copies, and the words of the page up to
/// the size of the gap that is left. Half 1 begins at 2,176, and the roots at 2,240. The objects of variables are
/// copied first, then what recorded slots refer to, in their order, and then what the slots of the copy refer to that
/// was made last of those not looked at. What lives over a second scavenge is in the page. A raw integer stays, though
/// it has the bits of the reference to the place where its object stood, or where a reference was recorded. What eden
/// has no room for is made in the first words of the page.
const SCAVENGED: &str = "\
new x 0; scavenge | 8705 | 64 34 3 3 0 | 30 2048
new x 0; scavenge; scavenge | 1 | 0 0 | 34 3 3 30 2045
new x 1; set x a 5000000000; set x a 8193; scavenge | 8705 | 64 70 3 3 8193 0 | 30 2048
new x 1; set x a 5000000000; set x a 8193; scavenge; scavenge | 1 | 0 0 | 70 3 3 8193 30 2044
new x 0; drop x; new y 0; let x y; scavenge | 8705 | 64 4294967330 3 3 0 | 30 2048
list l; push l 5000000000; push l l; scavenge | 8705 | 64 6 8717 2 14 4 8741 8705 7 7 22 5000000000 0 | 30 2048
list l; push l 5000000000; push l l; scavenge; scavenge | 1 | 0 0 | 6 13 2 14 4 37 1 7 7 22 5000000000 30 2037
weak m; wput m m 5; scavenge | 8705 | 64 10 8717 1 18 4 8705 10 7 7 7 7 7 7 0 | 30 2048
weak m; wput m m 5; scavenge; scavenge | 1 | 0 0 | 10 13 1 18 4 1 10 7 7 7 7 7 7 30 2035
list l; new x 1; new y 0; set x a y; push l x; new x 1; new y 0; set x a y; push l x; drop x; drop y; scavenge | \
8705 | 64 6 8717 2 14 4 8741 8757 7 7 4294967366 3 3 8785 12884901958 3 3 8773 17179869218 3 3 8589934626 3 3 0 | \
30 2048
new x 1; scavenge; scavenge; new y 0; set x a y; drop y; scavenge | 1 | 64 4294967330 3 3 0 | 70 3 3 8705 30 2044
new x 1; scavenge; scavenge; new y 0; set x a y; drop y; scavenge; scavenge | 1 | 0 0 | 70 3 3 17 4294967330 3 3 30 2041
new x 1; scavenge; scavenge; new y 0; set x a y; drop y; set x a 7; scavenge | 1 | 64 0 | 70 3 3 14 30 2044
new x 0; new y 1; scavenge; scavenge; new z 0; set y a z; set x a z; drop z; scavenge | 1 | \
64 14 4 8729 7 7 7 8589934626 3 3 0 | 74 8705 3 4294967366 3 3 8729 30 2041
list l; push l 1; push l 2; push l 3; push l 4; scavenge; scavenge; new y 0; put l 3 y; drop y; shift l 2; scavenge | \
1 | 64 4294967330 3 3 0 | 6 21 2 30 2 14 2 6 8705 30 2039
weak m; scavenge; scavenge; new k 0; wput m k m; scavenge | 1 | \
64 4294967330 3 3 18 4 7 7 8705 1 7 7 7 7 0 | 10 8717 1 30 2045
weak m; wput m m 1; scavenge; scavenge; new k 0; wput m k 2; drop k; scavenge | 1 | \
64 4294967330 3 3 0 | 10 13 2 18 4 1 2 8705 4 7 7 7 7 30 2035
weak m; wput m m 1; scavenge; scavenge; new k 0; wput m k 2; drop k; scavenge; scavenge | 1 | \
0 0 | 10 13 2 18 4 1 2 53 4 7 7 7 7 4294967330 3 3 30 2032
list l; repeat 33; push l 1; end | 1 | 0 14 32 2 2 | 6 13 33 14 64 2 2 2 2 2 2 2 2 2 2 2 2 2 2 2 2 2 2 2 2 2 2 2 2 2 2 \
2 2 2 2 2 2 2 7 7 7 7 7 7 7 7 7 7 7 7 7 7 7 7 7 7 7 7 7 7 7 7 7 7 7 7 7 7 7 30 1979
new a 7; new b 7; new c 7; new d 7; new e 7; new f 7; new g 0; new x 1; new y 0; set x a y; drop y; scavenge | 17 | \
64 34359738402 3 3 0 | 30064771142 3 3 8705 62 3 3 7 7 7 7 7 7 7 4294967358 3 3 7";

#[test]
fn a_scavenge_leaves_the_words_of_what_lives(rt: HostRuntime) -> Result<(), Fail> {
    for row in SCAVENGED.lines() {
        let mut fields = row.split(" | ");
        let given = "run --pages 1 --young 64 --helpers 0";
        let seen = came(&rt, given, fields.next().unwrap_or(""), SURE)?;
        let root = text_of(rt.alloc(), seen.words.get(2_240..2_241).unwrap_or(&[]))?;
        assert_eq!(rt;
            root.as_str().trim_start(),
            fields.next().unwrap_or(""),
            "{row}"
        );
        let half = fields.next().unwrap_or("");
        let (from, wanted) = match half.strip_prefix("64 ") {
            Some(wanted) => (2_176, wanted),
            None => (2_112, half.strip_prefix("0 ").unwrap_or("")),
        };
        let end = from + wanted.split(' ').count();
        let words = text_of(rt.alloc(), seen.words.get(from..end).unwrap_or(&[]))?;
        assert_eq!(rt; words.as_str().trim_start(), wanted, "{row}");
        let page = fields.next().unwrap_or("");
        let end = page.split(' ').count();
        let words = text_of(rt.alloc(), seen.words.get(0..end).unwrap_or(&[]))?;
        assert_eq!(rt; words.as_str().trim_start(), page, "{row}");
    }
    Ok(())
}

/// 511 objects of 4 words and a list of 3 are in the page: 2,047 words.
#[test]
fn a_word_that_is_left_of_a_page_is_a_filler(rt: HostRuntime) -> Result<(), Fail> {
    let script =
        "let p undefined; repeat 511; new x 1; set x n p; let p x; end; list l; scavenge; scavenge";
    let given = "run --pages 1 --young 4096 --helpers 0";
    let seen = came(&rt, given, script, SURE)?;
    assert_eq!(rt; seen.words.get(2_047).copied(), Some(26));
    assert_eq!(rt; (seen.used, seen.survivors), (0, 0));
    Ok(())
}

/// With one helper each half has two segments of 64 words: half 1 begins at 2,240, the main side's segment of
/// it at 2,304, and the roots at 2,368. The object that is dead is not copied.
#[test]
fn copies_go_to_the_segment_of_the_main_side(rt: HostRuntime) -> Result<(), Fail> {
    let given = "run --pages 1 --young 64 --helpers 1";
    let seen = came(&rt, given, "new x 0; drop x; new x 0; scavenge", SURE)?;
    let places = [
        (2_048usize, 0u64),
        (2_112, 0),
        (2_176, 0),
        (2_240, 0),
        (2_304, 4_294_967_330),
        (2_305, 3),
        (2_306, 3),
        (2_307, 0),
        (2_368, 9_217),
    ];
    for (at, word) in places {
        assert_eq!(rt; seen.words.get(at).copied(), Some(word), "at {at}");
    }
    assert_eq!(rt; (seen.used, seen.survivors), (0, 3));
    Ok(())
}

/// Free pages are gaps. With 8,192 young words and two helpers there are 6 segments, and behind them the
/// roots begin at 188,416. A variable has two root words, and a path its layout word.
#[test]
fn a_kept_heap_has_its_regions_by_the_words(rt: HostRuntime) -> Result<(), Fail> {
    let seen = came(&rt, "run", "new x 2; set x a 1", SURE)?;
    let places = [
        (0usize, 30u64),
        (1, 2_048),
        (188_416, 524_289),
        (188_417, 0),
        (188_418 + 17, 0x121),
    ];
    for (at, word) in places {
        assert_eq!(rt; seen.words.get(at).copied(), Some(word), "at {at}");
    }
    assert_eq!(rt; seen.words.len(), 188_418 + 8_200);
    let given = "run --pages 1 --young 64 --helpers=0";
    let seen = came(&rt, given, "let x 1; let y 2", SURE)?;
    assert_eq!(rt; seen.sizes.as_str(), "1 64 0 2");
    assert_eq!(rt; seen.words.len(), 2_048 + 64 + 128 + 4 + 8_200);
    Ok(())
}
