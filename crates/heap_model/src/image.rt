//! A heap as plain data: what is stored of one, and taken up again.
ghost use Rattle.std.specs.Prelude.{◌≡◌};

use page_space::Regions;
use shape_tree::ShapeTree;
use std::marker::Model;

/// The words of a heap, by their addresses.
#[derive(Drop)]
pub struct HeapWords {
    words: Vec<u64>,
}

impl Model for HeapWords {
    ghost use Rattle.std.specs.Prelude.{ℕ, List};

    ghost Value = { List ℕ };

    ghost view = { λ own. own.words.items };
}

impl HeapWords {
    /// These words. It takes no memory.
    pub fn from_vec(words: Vec<u64>) -> HeapWords
        ensures { result ≡ words.items }
    {
        HeapWords { words }
    }

    /// The words given back. It takes no memory.
    pub fn into_vec(self) -> Vec<u64>
        ensures { result.items ≡ self }
    {
        self.words
    }

    /// The words to be read.
    pub fn as_slice(&self) -> &[u64]
        ensures { result.now ≡ self.now }
    {
        &self.words
    }
}

/// A heap between two commands. Nothing is promised of it: `Whole` of `specs/Wholeness.antt` says
/// which of them are heaps.
#[derive(Drop)]
pub struct HeapImage {
    /// The sizes and the number of variables, and so where the regions stand.
    pub regions: Regions,
    /// How many words of eden are used.
    pub used: u32,
    /// How many words the survivors in the segments have.
    pub survivors: u32,
    /// The shapes in use.
    pub shapes: ShapeTree,
    /// The words of pages, eden, segments, roots and layouts.
    pub words: HeapWords,
}
