//! Whether the root words of a heap are those of another one moved.
ghost use Rattle.std.specs.Prelude.{◌<◌, ◌↔◌, IsTrue};
ghost use Rattle.heap_model.specs.Images.{image_heap};
ghost use Rattle.heap_moves.specs.Moved.{IsMovedRoot};
ghost use Rattle.slow_check.specs.Moves.{to_of};
ghost use Rattle.slow_check.specs.MovedCells.{AreMovedRoots, IsMovedThere};

use crate::moved_words::is_moved_word;
use crate::moves::Move;
use heap_model::HeapImage;
use image_walk::word_at;

/// Whether the root words of each variable are moved.
pub(crate) fn are_moved_roots(old: &HeapImage, new: &HeapImage, moves: &[Move]) -> bool
    ensures { IsTrue result
        ↔ AreMovedRoots (image_heap old.now) (image_heap new.now) (to_of moves.now) }
{
    for variable in 0..old.regions.variables() {
        if !is_moved_root(old, new, moves, variable) {
            return false;
        }
    }
    true
}

/// Whether the first root word of a variable is moved, and the second one is as it was.
fn is_moved_root(old: &HeapImage, new: &HeapImage, moves: &[Move], variable: u32) -> bool
    requires known { variable < old.now.regions.variables }
    ensures { IsTrue result
        ↔ IsMovedRoot (image_heap old.now) (image_heap new.now) (to_of moves.now) variable }
{
    // That the count fits 32 bits bounds the sum `first + 1`; its value is of no use here.
    let _words_count = old.regions.count();
    let first = old.regions.root_at(variable);
    if word_at(new, first + 1) != word_at(old, first + 1) {
        return false;
    }
    is_moved_there(old, new, moves, first)
}

/// Whether the word at an address is moved, where both heaps have one there.
fn is_moved_there(old: &HeapImage, new: &HeapImage, moves: &[Move], at: u32) -> bool
    ensures { IsTrue result ↔ IsMovedThere (to_of moves.now) old.now.words new.now.words at }
{
    let Some(word) = word_at(old, at) else {
        return true;
    };
    let Some(now) = word_at(new, at) else {
        return true;
    };
    is_moved_word(moves, word, now)
}
