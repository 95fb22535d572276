//! Scripts that reach a limit, and one step past it.

use crate::meaning::told;
use std::alloc::{AllocError, Global};
use std::test::Fail;

/// The script of a row: its first line, then so often lines with the number of the turn between these
/// two texts, then its last lines.
fn source_of(
    alloc: Global,
    (first, before, after, turns, last): (&str, &str, &str, u32, &str),
) -> Result<String, AllocError> {
    let mut source = String::from_str(alloc, first)?;
    for turn in 0..turns {
        let lines = format!(in alloc; "{before}{turn}{after}")?;
        source.push_str(&lines)?;
    }
    source.push_str(last)?;
    Ok(source)
}

/// The parts of each script, and what it writes.
const SCRIPTS: [((&str, &str, &str, u32, &str), &str); 6] = [
    // A full list gives up its front and its back.
    (
        (
            "list x\n",
            "push x 7 #",
            "\n",
            1000,
            "shift x 1\nshift x 998\nat y x 0\nprint y\ntrunc x 0\npush x 8\nat y x 0\nprint y",
        ),
        "7\n8\n",
    ),
    (
        ("list x\n", "push x 7 #", "\n", 1000, "push x 7"),
        "fault 1002 listfull\n",
    ),
    // Entries whose key cannot be reached do not count.
    (
        (
            "weak x\n",
            "new y 0 #",
            "\nwput x y 1\n",
            256,
            "wput x y 2\nwget z x y\nprint z\nnew y 0\nwput x y 3\nwget z x y\nprint z",
        ),
        "2\n3\n",
    ),
    // A weak map that is full of keys in a list still gives them values, and a key that is lost makes room
    // for another.
    (
        (
            "weak x\nlist l\n",
            "new y 0 #",
            "\npush l y\nwput x y 1\n",
            256,
            "wput x y 2\nwget z x y\nprint z\nshift l 1\nnew y 0\nwput x y 3\nwget z x y\nprint z\n\
             let k y\nnew y 0\nwput x y 4",
        ),
        "2\n3\nfault 781 weakfull\n",
    ),
    // The 64 fields are more than the cap: it bounds no fields.
    (
        (
            "new x 8\n",
            "set x f",
            " 0\n",
            64,
            "set x f63 1\nget y x f63\nprint y\nset x f64 0",
        ),
        "1\nfault 69 fieldsfull\n",
    ),
    // 9 paths stand at the start, and each turn adds two.
    (
        (
            "new x 1\n",
            "set x f",
            " 0\nset x g 0\nnew x 1\n",
            4091,
            "set x g 0\nprint 1\nset x g x",
        ),
        "1\nfault 12277 shapesfull\n",
    ),
];

#[test]
fn limits_hold_to_the_last_and_not_past_it(rt: HostRuntime) -> Result<(), Fail> {
    for (parts, output) in SCRIPTS {
        let source = source_of(rt.alloc(), parts)?;
        let (_, text) = told(rt.alloc(), source.as_bytes())?;
        assert_eq!(rt; text.as_slice(), output.as_bytes(), "{output}");
    }
    Ok(())
}
