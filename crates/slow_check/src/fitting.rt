//! Whether so many words fit into a heap.
ghost use Rattle.std.specs.Prelude.{◌↔◌, ◌+◌, ◌≤◌, ◌<◌, IsTrue};
ghost use Rattle.heap_model.specs.Images.{image_heap};
ghost use Rattle.heap_model.specs.Wholeness.{HasRows};
ghost use Rattle.live_cells.specs.Exact.{Fits};
ghost use Rattle.image_walk.specs.Words.{HasWords};
ghost use Rattle.slow_check.specs.DeadCells.{HasDead, HasPageDead, BeginsAt, FitsInPage};

use crate::dead::is_dead;
use heap_model::HeapImage;
use page_space::PAGE_WORDS;

/// Whether so many words fit: beside the survivors and the used words of eden into the young
/// generation; or one behind another into a page, where they are dead. For each word of a page it
/// walks through the cells before it, and for each of a store, a weak table or a box through all.
pub fn fits(image: &HeapImage, n: u32) -> bool
    requires sized { HasWords (image_heap image.now) }
    requires rows { HasRows (image_heap image.now) }
    ensures { IsTrue result ↔ Fits (image_heap image.now) n }
{
    if fits_young(image, n) {
        true
    } else {
        fits_in_page(image, n)
    }
}

/// Whether so many words are within the young generation, with survivors and used words.
fn fits_young(image: &HeapImage, n: u32) -> bool
    ensures { IsTrue result ↔ (image.now.survivors + image.now.used + n ≤ image.now.regions.sizes.young) }
{
    let taken = image.survivors as u64 + image.used as u64;
    taken + n as u64 <= image.regions.sizes().young as u64
}

/// Whether some page has so many dead words one behind another.
fn fits_in_page(image: &HeapImage, n: u32) -> bool
    requires sized { HasWords (image_heap image.now) }
    requires rows { HasRows (image_heap image.now) }
    requires some { 1 ≤ n }
    ensures { IsTrue result ↔ FitsInPage (image_heap image.now) n }
{
    for page in 0..image.regions.sizes().pages {
        if has_page_dead(image, page, n) {
            return true;
        }
    }
    false
}

/// Whether a page has so many dead words one behind another.
fn has_page_dead(image: &HeapImage, page: u32, n: u32) -> bool
    requires sized { HasWords (image_heap image.now) }
    requires rows { HasRows (image_heap image.now) }
    requires some { 1 ≤ n }
    requires there { page < image.now.regions.sizes.pages }
    ensures { IsTrue result ↔ HasPageDead (image_heap image.now) n page }
{
    // No address of a heap is past 32 bits.
    image.regions.sizes_fit();
    has_dead(image, PAGE_WORDS * page, PAGE_WORDS * (page + 1), n)
}

/// Whether between two addresses so many dead words stand one behind another.
fn has_dead(image: &HeapImage, start: u32, end: u32, n: u32) -> bool
    requires sized { HasWords (image_heap image.now) }
    requires rows { HasRows (image_heap image.now) }
    requires some { 1 ≤ n }
    ensures { IsTrue result ↔ HasDead (image_heap image.now) start end n }
{
    let mut first = start;
    for at in start..end {
        first = begin_of(image, first, at);
        if at + 1 - first >= n {
            return true;
        }
    }
    false
}

/// Where the dead words begin that end with the word at an address, if those before it began at
/// another; the next address where the word is not dead.
fn begin_of(image: &HeapImage, first: u32, at: u32) -> u32
    requires sized { HasWords (image_heap image.now) }
    requires rows { HasRows (image_heap image.now) }
    requires few { at < u32.MAX }
    ensures { BeginsAt (image_heap image.now) first at result }
{
    if is_dead(image, at) { first } else { at + 1 }
}
