//! Tables with open addressing of a few places. The expected ones are worked out place by place.

use linear_probing::{find_place, remove};
use std::alloc::Global;
use std::test::Fail;

/// The places that a text says: a number each, or nothing where no number stands.
fn places(alloc: Global, text: &str) -> Result<Vec<Option<u32>>, Fail> {
    let mut table = Vec::new(alloc);
    for word in text.split_whitespace() {
        table.push(word.parse::<u32>().ok())?;
    }
    Ok(table)
}

/// 3, 11, 5, 19, 7, 15 and 23, put in this order: the homes of three are at place 3, of three at 7.
const USUAL: &str = "15 23 - 3 11 5 19 7";

#[test]
fn probing_goes_up_from_the_home_and_round(rt: HostRuntime) -> Result<(), Fail> {
    let rows = [
        (USUAL, 3, Some(3)),
        (USUAL, 11, Some(4)),
        (USUAL, 5, Some(5)),
        (USUAL, 19, Some(6)),
        (USUAL, 7, Some(7)),
        (USUAL, 15, Some(0)),
        (USUAL, 23, Some(1)),
        (USUAL, 27, Some(2)),
        (USUAL, 8, Some(2)),
        (USUAL, 2, Some(2)),
        (USUAL, u32::MAX, Some(2)),
        ("4 6 2 5", 6, Some(1)),
        ("4 6 2 5", 9, None),
        ("", 9, None),
    ];
    for (table, number, at) in rows {
        let found = find_place(places(rt.alloc(), table)?.as_slice(), number);
        assert_eq!(rt; found, at, "{number} in {table}");
    }
    Ok(())
}

#[test]
fn numbers_that_would_be_lost_move_back(rt: HostRuntime) -> Result<(), Fail> {
    let rows = [
        (USUAL, 3, "15 23 - 11 19 5 - 7"),
        ("15 23 - 11 19 5 - 7", 7, "23 - - 11 19 5 - 15"),
        ("23 - - 11 19 5 - 15", 2, "23 - - 11 19 5 - 15"),
        ("4 6 2 5", 0, "- 5 2 6"),
        ("9", 0, "-"),
    ];
    for (table, at, left) in rows {
        let mut list = places(rt.alloc(), table)?;
        assert!(rt; at < list.len());
        remove(list.as_mut_slice(), at);
        let wanted = places(rt.alloc(), left)?;
        assert!(rt; list.as_slice() == wanted.as_slice(), "{at} out of {table}");
    }
    Ok(())
}
