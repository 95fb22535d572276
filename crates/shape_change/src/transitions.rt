//! The ways from the shape of an object to another: the paths that are added, and the header. Which path a change
//! leads to is in `shape_tree`; its layout words are put by `write_barrier`.
ghost use Rattle.std.specs.Prelude.{◌≡◌, ◌<◌, false, length, slice_set};
ghost use Rattle.object_graph.specs.Invariants.{fields_most};
ghost use Rattle.heap_model.specs.Wholeness.{HasSizes};
ghost use Rattle.shape_tree.specs.Shapes.{IsPathShape, shape_path, has_name, stepped};
ghost use Rattle.shape_tree.specs.Growth.{IsStep};
ghost use Rattle.write_barrier.specs.MutatorState.{heap_of, with_word};
ghost use Rattle.write_barrier.specs.Marking.{MayPutHeader};
ghost use Rattle.shape_change.specs.Deletions.{shaped_bits};
ghost use Rattle.shape_change.specs.Additions.{AddsPath};
ghost use Rattle.page_space.specs.Extents.{marks_start};
ghost use Rattle.write_barrier.specs.Seats.{heap_words};

use object_graph::PathField;
use shape_tree::Step;
use tagged_word::Header;
use write_barrier::Main;

/// The shape of the path of a shape with a field more, to which this step leads: it is added where
/// it is missing.
#[inline(always)]
pub(crate) fn step_to(main: &mut Main, shape: u32, field: PathField, step: Step) -> u32
    requires sized { HasSizes (heap_of main.old) }
    requires path { IsPathShape main.old.paths shape }
    requires is_new { has_name (shape_path main.old.paths shape) field.name ≡ false }
    requires few { length (shape_path main.old.paths shape).fields < fields_most }
    requires step { let path = stepped (shape_path main.old.paths shape) field.name field.rep in
        IsStep main.old.paths path step }
    ensures { let path = stepped (shape_path main.old.paths shape) field.name field.rep in
        AddsPath main.old main.new path result }
{
    // There are no more paths than there may be.
    main.paths_fit();
    match step {
        Step::Found(next) => next,
        Step::Missing => main.step_path(shape, field, step),
    }
}

/// Gives an object another shape. No other word changes.
pub(crate) fn set_shape(main: &mut Main, object: u32, header: Header, shape: u32)
    requires may { MayPutHeader main.old object (shaped_bits header shape) }
    requires within { object < marks_start main.old.seat.space }
    requires path { IsPathShape main.old.paths shape }
    ensures put { main.new ≡ with_word main.old object (shaped_bits header shape) }
    ensures heap { let words = heap_words main.old.seat in
        heap_words main.new.seat ≡ slice_set words object (shaped_bits header shape) }
{
    // There are no more paths than shapes.
    main.paths_fit();
    let changed = Header {
        shape,
        object: header.object,
    };
    main.set_header(object, changed);
}
