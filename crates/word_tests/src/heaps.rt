//! Heaps of the usual sizes, with words that are written out.
//!
//! Their pages begin at 0, eden at 131,072, the roots at 188,416, the layout words at 188,418, the
//! marks at 196,618 and the board at 327,690; there are 327,754 words.

use crate::loads::Counted;
use page_space::{Regions, Sizes};
use std::alloc::Global;
use std::test::Fail;
use word_store::{Reads, VecWords, Words};

pub(crate) const EDEN: u32 = 131_072;

pub(crate) const ROOTS: u32 = 188_416;

pub(crate) const LAYOUTS: u32 = 188_418;

pub(crate) const MARKS: u32 = 196_618;

pub(crate) const BOARD: u32 = 327_690;

/// 64 pages, a young generation of 8,192 words, 2 helpers, and one variable.
pub(crate) fn usual() -> Regions {
    let sizes = Sizes {
        pages: 64,
        young: 8_192,
        helpers: 2,
    };
    Regions::new(sizes, 1)
}

/// The words of a heap: these at an address, and the layout words of the shapes 1 to 8, 17 and
/// 8,199. Shape 8 has 8 own slots, uses them all, and every other one is raw; shape 17 has 2 and
/// uses 1; 8,199 is laid out as a filler. The first mark word reads as the layout of a filler too.
pub(crate) fn heap(alloc: Global, at: u32, stretch: &[u64]) -> Result<Counted, Fail> {
    let mut words = VecWords::new(alloc, usual().count())?;
    put_all(&mut words, LAYOUTS + 1, &[2, 3, 4, 5, 6, 7, 8, 0x5_5881]);
    put_all(&mut words, LAYOUTS + 17, &[0x121]);
    put_all(&mut words, MARKS - 1, &[7, 7]);
    put_all(&mut words, at, stretch);
    Ok(Counted { words, loads: 0 })
}

/// Puts words at an address and behind it, as far as there are words.
fn put_all(words: &mut VecWords, at: u32, stretch: &[u64]) {
    let mut a = at;
    for word in stretch {
        if a < words.count() {
            words.put(a, *word);
            a += 1;
        }
    }
}
