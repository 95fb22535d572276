//! Field paths that are added to the shapes, with their layout words.
ghost use Rattle.std.specs.Prelude.{◌≡◌, ◌<◌, length, false};
ghost use Rattle.object_graph.specs.Invariants.{fields_most};
ghost use Rattle.shape_tree.specs.Shapes.{IsPathShape, shape_path, has_name, stepped, changed, without};
ghost use Rattle.shape_tree.specs.Growth.{IsStep};
ghost use Rattle.write_barrier.specs.Layouts.{HasBoth, HasFirst, PutsLayouts};
ghost use Rattle.heap_model.specs.Wholeness.{HasSizes};
ghost use Rattle.write_barrier.specs.MutatorState.{heap_of};
ghost use Rattle.write_barrier.specs.Opening.{LaysPath, LaysPathOr};

use crate::layouts::put_layouts;
use crate::main_side::Main;
use heap_table::MainSeat;
use object_graph::{PathField, Rep};
use shape_tree::{ShapeTree, ShapesFull, Step};
use tagged_word::shape;

/// Puts the layout words of the paths behind the first `before`: those of the first are there.
#[inline(always)]
fn put_new_layouts(seat: &mut MainSeat, shapes: &ShapeTree, before: u32)
    requires layouts { HasFirst seat.old shapes.now before }
    ensures layouts { HasBoth seat.new shapes.now }
    ensures changes { PutsLayouts seat.old seat.new }
{
    // There are no more paths than shapes.
    shapes.paths_fit();
    put_layouts(seat, shapes, shape::PATHS + before);
}

impl Main {
    /// The shape of the path of a shape with a field more, to which this step leads: it is added where it is missing.
    #[cold]
    #[inline(never)]
    pub fn step_path(&mut self, shape: u32, field: PathField, step: Step) -> u32
        requires sized { HasSizes (heap_of self.old) }
        requires path { IsPathShape self.old.paths shape }
        requires is_new { has_name (shape_path self.old.paths shape) field.name ≡ false }
        requires few { length (shape_path self.old.paths shape).fields < fields_most }
        requires step { let path = stepped (shape_path self.old.paths shape) field.name field.rep in
            IsStep self.old.paths path step }
        ensures { let path = stepped (shape_path self.old.paths shape) field.name field.rep in
            LaysPath self.old self.new path result }
    {
        let before = self.shapes.paths();
        let next = self.shapes.step(shape, field, step);
        put_new_layouts(&mut self.seat, &self.shapes, before);
        self.addresses_fit();
        self.paths_fit();
        next
    }

    /// The shape of the path of a shape with another representation of one field: it is added where it is missing.
    ///
    /// # Errors
    /// There may not be as many paths; nothing has changed.
    #[inline]
    pub fn change_path(&mut self, shape: u32, slot: u32, rep: Rep) -> Result<u32, ShapesFull>
        requires sized { HasSizes (heap_of self.old) }
        requires path { IsPathShape self.old.paths shape }
        requires there { slot < length (shape_path self.old.paths shape).fields }
        ensures { let path = changed (shape_path self.old.paths shape) slot rep in
            LaysPathOr self.old self.new path result }
    {
        let before = self.shapes.paths();
        let next = self.shapes.change(shape, slot, rep)?;
        put_new_layouts(&mut self.seat, &self.shapes, before);
        self.addresses_fit();
        self.paths_fit();
        Ok(next)
    }

    /// The shape of the path of a shape without one field: it is added where it is missing.
    ///
    /// # Errors
    /// There may not be as many paths; nothing has changed.
    #[inline]
    pub fn shorten_path(&mut self, shape: u32, slot: u32) -> Result<u32, ShapesFull>
        requires sized { HasSizes (heap_of self.old) }
        requires path { IsPathShape self.old.paths shape }
        requires there { slot < length (shape_path self.old.paths shape).fields }
        ensures { let path = without (shape_path self.old.paths shape) slot in
            LaysPathOr self.old self.new path result }
    {
        let before = self.shapes.paths();
        let next = self.shapes.without(shape, slot)?;
        put_new_layouts(&mut self.seat, &self.shapes, before);
        self.addresses_fit();
        self.paths_fit();
        Ok(next)
    }
}
