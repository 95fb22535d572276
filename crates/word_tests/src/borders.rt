//! Regions at their borders (`page_space`). The addresses are added up by hand from the sizes.

use crate::heaps::usual;
use page_space::{Region, Regions, Sizes};

/// The first and the last address of a region of the usual heap: 64 pages of 2,048 words, eden and
/// 6 segments of 8,192, one root, 8,200 layout words, 131,072 mark words, and the board.
const REGIONS: [(u32, u32, Region); 17] = [
    (0, 2_047, Region::Page(0)),
    (2_048, 4_095, Region::Page(1)),
    (129_024, 131_071, Region::Page(63)),
    (131_072, 139_263, Region::Eden),
    (139_264, 147_455, Region::Segment { half: 0, worker: 0 }),
    (147_456, 155_647, Region::Segment { half: 0, worker: 1 }),
    (155_648, 163_839, Region::Segment { half: 0, worker: 2 }),
    (163_840, 172_031, Region::Segment { half: 1, worker: 0 }),
    (180_224, 188_415, Region::Segment { half: 1, worker: 2 }),
    (188_416, 188_417, Region::Root(0)),
    (188_418, 188_418, Region::Layout(0)),
    (188_435, 188_435, Region::Layout(17)),
    (196_617, 196_617, Region::Layout(8_199)),
    (196_618, 196_618, Region::Mark(0)),
    (327_689, 327_689, Region::Mark(131_071)),
    (327_690, 327_690, Region::Board(0)),
    (327_753, 327_753, Region::Board(63)),
];

/// Row, and a region that the usual heap has not.
const NO_REGIONS: [(u32, Region); 8] = [
    (1, Region::Page(64)),
    (2, Region::Segment { half: 2, worker: 0 }),
    (3, Region::Segment { half: 0, worker: 3 }),
    (4, Region::Root(1)),
    (5, Region::Layout(8_200)),
    (6, Region::Mark(131_072)),
    (7, Region::Board(64)),
    (8, Region::Outside),
];

/// Where a region begins; none for one that the heap has not.
fn start_of(regions: &Regions, region: Region) -> Option<u32> {
    if regions.has(region) {
        Some(regions.start(region))
    } else {
        None
    }
}

/// Whether a region stands from an address to another. No two regions begin at one address.
fn stands(regions: &Regions, region: Region, first: u32, last: u32) -> bool {
    start_of(regions, region) == Some(first)
        && start_of(regions, regions.region(first)) == Some(first)
        && start_of(regions, regions.region(last)) == Some(first)
}

#[test]
fn each_region_has_its_first_and_its_last_address(rt: HostRuntime) {
    let regions = usual();
    for (first, last, region) in REGIONS {
        assert!(rt; stands(&regions, region, first, last), "address {first}");
    }
    for (row, region) in NO_REGIONS {
        assert!(rt; !regions.has(region), "row {row}");
    }
    for a in [327_754, u32::MAX] {
        assert!(rt; !regions.has(regions.region(a)), "address {a}");
    }
}

/// An address, whether it is of a page, whether it is of the young generation, and where the cells
/// there end.
const ENDS: [(u32, bool, bool, Option<u32>); 13] = [
    (0, true, false, Some(2_048)),
    (2_047, true, false, Some(2_048)),
    (2_048, true, false, Some(4_096)),
    (131_071, true, false, Some(131_072)),
    (131_072, false, true, Some(139_264)),
    (139_263, false, true, Some(139_264)),
    (139_264, false, true, Some(147_456)),
    (163_839, false, true, Some(163_840)),
    (163_840, false, true, Some(172_032)),
    (188_415, false, true, Some(188_416)),
    (188_416, false, false, None),
    (196_618, false, false, None),
    (327_754, false, false, None),
];

#[test]
fn cells_end_with_their_page_eden_or_segment(rt: HostRuntime) {
    let regions = usual();
    for (a, is_page, is_young, end) in ENDS {
        assert!(rt; regions.is_page(a) == is_page, "page of {a}");
        assert!(rt; regions.is_young(a) == is_young, "generation of {a}");
        assert!(rt; regions.cells_end(a) == end, "end of {a}");
    }
}

/// Pages, words of the young generation, helpers, variables, and the words of all regions where a
/// heap may have these. The third is 2,048 + 3 * 64 + 8,200 + 2,048 + 64.
const COUNTS: [(u32, u32, u32, u32, Option<u32>); 10] = [
    (64, 8_192, 2, 1, Some(327_754)),
    (64, 8_192, 2, 3, Some(327_758)),
    (1, 64, 0, 0, Some(12_552)),
    (512, 65_536, 7, 1_024, Some(3_221_576)),
    (0, 8_192, 2, 1, None),
    (513, 8_192, 2, 1, None),
    (64, 63, 2, 1, None),
    (64, 65_537, 2, 1, None),
    (64, 8_192, 8, 1, None),
    (64, 8_192, 2, 1_025, None),
];

#[test]
fn sizes_within_their_limits_make_so_many_words(rt: HostRuntime) {
    for (pages, young, helpers, variables, words) in COUNTS {
        let sizes = Sizes {
            pages,
            young,
            helpers,
        };
        let count = if sizes.are_within(variables) {
            Some(Regions::new(sizes, variables).count())
        } else {
            None
        };
        assert!(rt; count == words, "{pages} {young} {helpers} {variables}");
    }
}
