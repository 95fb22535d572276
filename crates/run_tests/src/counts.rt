//! How many lines a kept heap counts as executed, which line stopped its run, and what that line needed.

use crate::runs::{SURE, came};
use std::test::Fail;

/// The words, the script, and executed lines, line and need, and the used words of eden and the survivors' words, or
/// nothing where no heap is kept. A list has 3 words, its stores 2 and their slots: 4, twice as many whenever one is
/// full, and 1,000 in the end. A weak map has 3, its tables 2 and two for each pair: 4, and twice as many whenever
/// twice the entries are more. A box has 2. A scavenge comes where the words that are wanted are not there, and leaves
/// those of what lives, but for what was there at the scavenge before: that goes to pages. Where it leaves no room the
/// words are granted of a page, and neither used words nor survivors come of it. All goes to pages where no run of one
/// has the words, and where `mark` begins a cycle or `finish` ends one. Rows that begin with 512 objects of 4 words
/// fill the only page with them. A soak collects fully at its end.
const COUNTS: &str = "\
run |  | 0 0 0 | 0 0
run | new x 2; set x a 5; get y x a; print y | 4 0 0 | 5 0
run | new x 1; set x a 5; set y b 6 | 2 3 0 | 4 0
run | repeat 0; print 1; end; print 2 | 2 0 0 | 0 0
run | repeat 2; print 1; end; print 2 | 6 0 0 | 0 0
run | let i 0; repeat 2; repeat 3; add i 1; end; print i; end | 20 0 0 | 0 0
run | repeat 2; repeat 0; print 1; end; end; print 3 | 6 0 0 | 0 0
run | print 1; repeat 3; get y q f; end | 2 3 0 | 0 0
run | gc | 1 0 0 | 0 0
run | mark | 1 0 0 | 0 0
run | mark x | 
run | new x 0; mark | 2 0 0 | 0 0
run | new x 0; mark; new y 0; mark | 4 0 0 | 3 0
run | new x 0; finish | 2 0 0 | 3 0
run | new x 0; mark; finish | 3 0 0 | 0 0
run | new x 0; mark; scavenge; finish | 4 0 0 | 0 0
run | mark; finish; new x 0; finish | 4 0 0 | 3 0
run | mark; gc; new x 0; finish | 4 0 0 | 3 0
run | repeat 2; new x 0; finish; mark; end | 9 0 0 | 0 0
run x | print 5 | 
soak 0 1 |  | 137 0 0 | 0 0
run | scavenge | 1 0 0 | 0 0
run | repeat 6000; new x 7; end | 12001 0 0 | 2730 10
run | let p undefined; repeat 6000; new x 7; set x n p; let p x; end | 24002 0 0 | 2600 0
run --pages 1 | let p undefined; repeat 6000; new x 7; set x n p; let p x; end | 4094 3 10 | 0 8190
run --young 64 | repeat 100; new x 1; end | 201 0 0 | 36 4
run --young 64 | let p undefined; repeat 100; new x 1; set x n p; let p x; end | 402 0 0 | 60 0
run --pages 1 --young 64 | let p undefined; repeat 600; new x 1; set x n p; let p x; end | 2114 3 4 | 0 64
run --young 64 | new x 1; set x a x; repeat 100; set x a 1; set x a 5000000000; end | 303 0 0 | 16 0
run --young 64 | new x 1; set x a x; repeat 100; set x a 5000000000; end | 203 0 0 | 6 0
run --young 64 | list l; repeat 100; push l 1; end | 202 0 0 | 0 0
run --pages 1 --young 64 | let o 0; repeat 512; new t 1; set t n o; let o t; end; scavenge; scavenge; \
list l; repeat 100; push l 1; end | 2118 11 66 | 0 37
run --young 64 | list l; repeat 100; push l 5000000000; end | 202 0 0 | 4 2
run --pages 1 --young 64 | let o 0; repeat 512; new t 1; set t n o; let o t; end; scavenge; scavenge; \
list l; repeat 100; push l 5000000000; end | 2086 11 36 | 0 53
run --young 64 | list l; push l 1; repeat 100; put l 0 5000000000; put l 0 1; end | 303 0 0 | 28 0
run --young 64 | list l; repeat 5; new x 7; push l x; end; new z 1; push l 5000000000 | 19 0 0 | 2 4
run --pages 1 --young 64 | let o 0; repeat 512; new t 1; set t n o; let o t; end; scavenge; scavenge; \
list l; repeat 5; new x 7; push l x; end; new z 1; push l 5000000000 | 2067 12 10 | 0 59
run --young 1519 | list l; repeat 1001; push l 7; end | 2002 3 0 | 1002 517
run --young 1518 | list l; repeat 1001; push l 7; end | 2002 3 0 | 0 517
run --pages 1 --young 1518 | let o 0; repeat 512; new t 1; set t n o; let o t; end; scavenge; scavenge; \
list l; repeat 1001; push l 7; end | 3078 11 1002 | 0 517
run --young 64 | list l; push l 1; repeat 100; push l 2; trunc l 1; end | 303 0 0 | 6 3
run --young 64 | list l; repeat 4; push l 1; end; repeat 100; shift l 1; push l 1; end | 311 0 0 | 56 5
run --young 64 | weak m; repeat 100; new k 0; wput m k 1; end | 302 0 0 | 12 30
run --pages 1 --young 64 | let o 0; repeat 512; new t 1; set t n o; let o t; end; scavenge; scavenge; \
weak m; repeat 100; new k 0; wput m k 1; end | 2354 0 0 | 9 24
run --pages 1 --young 64 | let o 0; repeat 512; new t 1; set t n o; let o t; end; scavenge; scavenge; \
weak m; repeat 100; new k 1; set k n o; let o k; wput m k 1; end | 2077 14 34 | 0 41
run --young 64 | weak m; new k 0; wput m k 1; repeat 100; wput m k 5000000000; wput m k 1; end | 304 0 0 | 40 0
run --young 64 | list l; weak m; repeat 3; new x 7; wput m x l; drop x; scavenge; end | 18 0 0 | 0 28
run --young 64 | new x 0; scavenge; new y 0; scavenge; drop x; scavenge; new z 0 | 7 0 0 | 3 0
run --pages 1 --young 64 | let o 0; repeat 512; new t 1; set t n o; let o t; end; scavenge; scavenge; \
new x 0; scavenge; new y 0; scavenge; drop x; scavenge; new z 0 | 2059 0 0 | 3 3
run --pages 1 --young 64 | new x 0; scavenge | 2 0 0 | 0 3
run --pages 1 --young 64 | new x 0; scavenge; scavenge | 3 0 0 | 0 0
run --pages 1 --young 64 | new x 0; scavenge; scavenge; new y 0; set x a y; drop y; scavenge | 7 0 0 | 0 9
run --pages 1 --young 64 | new a 7; new b 7; new c 7; new d 7; new e 7; new f 7; new g 1; new x 7 | 8 0 0 | 0 64
run --pages 1 --young 64 | new a 7; new b 7; new c 7; new d 7; new e 7; new f 7; new g 1; new x 7; new y 0 | \
9 0 0 | 3 0
run --pages 1 --young 64 | list l; new u 0; let o 0; repeat 494; new t 1; set t n o; let o t; end; scavenge; scavenge; \
repeat 65; push l 7; end | 2111 12 130 | 0 0
run --pages 1 --young 64 | list l; new u 1; let o 0; repeat 494; new t 1; set t n o; let o t; end; scavenge; scavenge; \
repeat 65; push l 7; end | 2047 12 66 | 0 0";

#[test]
fn a_kept_heap_counts_executed_lines(rt: HostRuntime) -> Result<(), Fail> {
    for row in COUNTS.lines() {
        let mut fields = row.split(" | ");
        let words = fields.next().unwrap_or("");
        let script = fields.next().unwrap_or("");
        let seen = came(&rt, words, script, SURE)?;
        assert_eq!(rt; seen.counts.as_str(), fields.next().unwrap_or(""), "{row}");
        let young = format!(in rt.alloc(); "{} {}", seen.used, seen.survivors)?;
        assert_eq!(rt; young.as_str(), fields.next().unwrap_or("0 0"), "{row}");
    }
    Ok(())
}
