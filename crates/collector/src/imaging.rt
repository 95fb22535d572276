//! Images of a heap: a heap as plain data. Its words are copied out of the table, or the heap ends and they are
//! the table. Memory for copies is the caller's, since only a run that is checked makes one.
ghost use Rattle.std.specs.Prelude.{◌≡◌, IfOk, length};
ghost use Rattle.object_graph.specs.Graphs.{Graph};
ghost use Rattle.page_space.specs.Extents.{marks_start};
ghost use Rattle.heap_model.specs.Images.{image_heap};
ghost use Rattle.heap_model.specs.Wholeness.{Whole};
ghost use Rattle.write_barrier.specs.MutatorState.{heap_of};
ghost use Rattle.collector.specs.Images.{AreWordsOf, IsImageOf, IsRoomFor};

use crate::blanking::blank_cells;
use crate::filling::fill_words;
use crate::script_heap::Heap;
use heap_model::{HeapImage, HeapWords};
use page_space::Regions;
use shape_tree::ShapeTree;
use std::alloc::Global;
use std::mem;
use tagged_word::NoMemory;
use word_store::Reads;
use write_barrier::Main;

/// An image without a cell, over words of 0: what images of heaps of these regions are put into. It takes the memory
/// for all their words and shapes.
pub fn image_room(alloc: Global, regions: Regions) -> Result<HeapImage, NoMemory>
    ensures { IfOk result (λ room. IsRoomFor regions room) }
{
    let words = vec![in alloc; 0u64; regions.mark_of(0) as usize]?;
    Ok(HeapImage {
        regions,
        used: 0,
        survivors: 0,
        shapes: ShapeTree::new(alloc)?,
        words: HeapWords::from_vec(words),
    })
}

/// The words of an image of the heap, put into words that are given back.
fn imaged(main: &Main, mut words: Vec<u64>) -> HeapWords
    requires whole { Whole (heap_of main.now) }
    requires ready { length words.items ≡ marks_start main.now.seat.space }
    ensures { AreWordsOf (heap_of main.now) result }
{
    fill_words(main, &mut words);
    HeapWords::from_vec(words)
}

/// The words and the shapes of a mutator's side, as an image.
fn parts_of(mut main: Main) -> HeapImage
    ensures { image_heap result ≡ heap_of main }
{
    let regions = main.regions();
    let used = main.used();
    let survivors = main.nursery_mut().survivors();
    let (shapes, words) = main.into_parts();
    HeapImage {
        regions,
        used,
        survivors,
        shapes,
        words: HeapWords::from_vec(words),
    }
}

impl Heap {
    ghost use Rattle.collector.specs.States.{HeapShows};

    /// Puts an image of the heap in the place of an image of the same regions. It takes no memory.
    pub fn put_image(&mut self, image: &mut HeapImage)
        requires shown { (graph : Graph) × HeapShows self.old graph }
        requires room { IsRoomFor self.old.main.seat.space image.old }
        ensures image { IsImageOf (heap_of self.old.main) (image_heap image.new) }
        ensures room { IsRoomFor self.old.main.seat.space image.new }
        ensures same { self.new ≡ self.old }
    {
        image.used = self.main.used();
        image.survivors = self.main.nursery_mut().survivors();
        image.shapes.copy_from(self.main.shapes());
        let none = HeapWords::from_vec(Vec::new(self.alloc));
        let last = mem::replace(&mut image.words, none);
        image.words = imaged(&self.main, last.into_vec());
    }

    /// The heap as an image of it. It takes no memory: the image has the table of the heap's words and
    /// the shapes, and all else that the heap had is given back.
    pub fn into_image(mut self) -> HeapImage
        requires { (graph : Graph) × HeapShows self graph }
        ensures { IsImageOf (heap_of self.main) (image_heap result) }
    {
        blank_cells(&mut self.main);
        let Heap {
            main,
            list: _,
            marking: _,
            in_cycle: _,
            collected: _,
            alloc: _,
        } = self;
        parts_of(main)
    }
}
