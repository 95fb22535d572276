//! Flaws of root words.
ghost use Rattle.std.specs.Prelude.{◌↔◌, ◌<◌, ℕ, IsTrue};
ghost use Rattle.heap_model.specs.Images.{image_heap};
ghost use Rattle.heap_model.specs.Slots.{IsPlace};
ghost use Rattle.heap_model.specs.Wholeness.{HasRows, HasRoot};
ghost use Rattle.heap_check.specs.Roots.{IsRootOf, IsRootBy, IsOddRoot, HasRoots};
ghost use Rattle.image_walk.specs.Words.{HasWords};
ghost use Rattle.heap_check.specs.Firsts.{IsVerdict};
ghost use Rattle.heap_check.specs.Frames.{BreaksRoot, BreaksRoots};
ghost use Rattle.heap_check.specs.Marks.{MarksStarts};

use crate::finding::find;
use crate::flaw::Flaw;
use heap_model::HeapImage;
use tagged_word::{Class, Word, is_small, odd};

/// The first flaw of the root words.
pub(crate) fn flaw_of_roots(image: &HeapImage, starts: &[bool]) -> Option<Flaw>
    requires sized { HasWords (image_heap image.now) }
    requires rows { HasRows (image_heap image.now) }
    requires marks { MarksStarts (image_heap image.now) starts.now }
    ensures { let heap = image_heap image.now in IsVerdict (HasRoots heap) (BreaksRoots heap) result }
{
    for variable in 0..image.regions.variables() {
        if let Some(flaw) = flaw_of_root(image, starts, variable) {
            return Some(flaw);
        }
    }
    None
}

/// The first flaw of the root words of a variable.
fn flaw_of_root(image: &HeapImage, starts: &[bool], variable: u32) -> Option<Flaw>
    requires sized { HasWords (image_heap image.now) }
    requires rows { HasRows (image_heap image.now) }
    requires marks { MarksStarts (image_heap image.now) starts.now }
    requires known { variable < image.now.regions.variables }
    ensures { let heap = image_heap image.now in
        IsVerdict (HasRoot heap variable) (BreaksRoot heap variable) result }
{
    // No address of a heap is past 32 bits.
    image.regions.sizes_fit();
    let at = image.regions.root_at(variable);
    let first = image.words.as_slice()[at as usize];
    let second = image.words.as_slice()[at as usize + 1];
    if is_root(image, starts, first, second) {
        return None;
    }
    if is_root(image, starts, first, 0) {
        return Some(Flaw {
            at: at + 1,
            found: second,
            wanted: 0,
        });
    }
    Some(Flaw {
        at,
        found: first,
        wanted: Word::odd(odd::UNBOUND).0,
    })
}

/// Whether two root words stand for something that a variable may hold.
fn is_root(image: &HeapImage, starts: &[bool], first: u64, second: u64) -> bool
    requires sized { HasWords (image_heap image.now) }
    requires rows { HasRows (image_heap image.now) }
    requires marks { MarksStarts (image_heap image.now) starts.now }
    ensures { IsTrue result ↔ IsRootOf (image_heap image.now) first second }
{
    match Word(first).class() {
        Some(class) => is_second(image, starts, class, second),
        None => false,
    }
}

/// Whether the second root word is one that goes with a first of this class.
fn is_second(image: &HeapImage, starts: &[bool], class: Class, second: u64) -> bool
    requires sized { HasWords (image_heap image.now) }
    requires rows { HasRows (image_heap image.now) }
    requires marks { MarksStarts (image_heap image.now) starts.now }
    ensures { IsTrue result ↔ IsRootBy (image_heap image.now) class second }
{
    match class {
        Class::Small(_) => second == 0,
        Class::Ref(at) => {
            if second == 0 {
                is_object_at(image, starts, at)
            } else {
                false
            }
        }
        Class::Odd(code) => is_odd_root(code, second),
    }
}

/// Whether an object's cell stands at an address.
fn is_object_at(image: &HeapImage, starts: &[bool], at: u32) -> bool
    requires sized { HasWords (image_heap image.now) }
    requires rows { HasRows (image_heap image.now) }
    requires marks { MarksStarts (image_heap image.now) starts.now }
    ensures { IsTrue result ↔ ((number : ℕ) × IsPlace (image_heap image.now) number at) }
{
    match find(image, starts, at) {
        Some(cell) => cell.layout.kind.is_object(),
        None => false,
    }
}

/// Whether a root word that is an odd value stands for something, with the word behind it.
fn is_odd_root(code: u32, second: u64) -> bool
    ensures { IsTrue result ↔ IsOddRoot code second }
{
    match code {
        odd::UNDEFINED => second == 0,
        odd::UNBOUND => second == 0,
        odd::WIDE => !is_small(second.cast_signed()),
        _ => false,
    }
}
