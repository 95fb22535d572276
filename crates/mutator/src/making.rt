//! The command `new`: a new cell. And how the commands `list` and `weak` make theirs.
ghost use Rattle.std.specs.Prelude.{◌≡◌, ℕ, ◌+◌, ◌<◌, ◌≤◌, List, [], length, OnOk};
ghost use Rattle.tagged_word.specs.Headers.{IsHeader};
ghost use Rattle.tagged_word.specs.Cells.{plain_head};
ghost use Rattle.page_space.specs.Extents.{marks_start};
ghost use Rattle.heap_command.specs.Commands.{IsWithin};
ghost use Rattle.object_graph.specs.Graphs.{Graph};
ghost use Rattle.heap_model.specs.Kinds.{count_offset};
ghost use Rattle.write_barrier.specs.Seats.{heap_words};
ghost use Rattle.write_barrier.specs.MutatorState.{MainShows, with_table};
ghost use Rattle.write_barrier.specs.Storing.{IsMadeYoung};
ghost use Rattle.write_barrier.specs.Values.{with_range};
ghost use Rattle.mutator.specs.Binding.{BindsMade};
ghost use Rattle.mutator.specs.CarriesOut.{Carries, field_numbers};
ghost use Rattle.write_barrier.specs.Recording.{Touches};
ghost use Rattle.mutator.specs.Making.{empty_counted, empty_plain, making_of, new_touch, shape_of_counted};

use crate::stop::Stop;
use handle_roots::Held;
use heap_command::Command;
use heap_model::cells::COUNT;
use tagged_word::cell::{PLAIN_HEAD, PROTO_SLOT, STORE_SLOT};
use tagged_word::{Header, Word, odd, shape};
use write_barrier::Main;

/// The words of a list's own cell, and of a weak map's: its header, the slot for its store or table, and
/// its length or count.
const COUNTED_WORDS: u32 = 3;

/// An object whose own cell has a count, and a slot for what stands in another cell. It is a type: so `new_counted` is
/// compiled for each of the two, and inlined where it is called. A value would be told apart at each `list` of a loop.
pub(crate) trait Counted {
    ghost use Rattle.mutator.specs.Making.{CountedCell};

    // Which of the two it is.
    ghost which: { CountedCell };

    /// The shape of its own cell.
    fn shape() -> u32
        ensures { result ≡ shape_of_counted which };
}

/// A list: its length, and the store of its elements.
pub(crate) struct ListCell;

impl Counted for ListCell {
    ghost use Rattle.mutator.specs.Making.{CountedCell};

    ghost which = { CountedCell.list };

    #[inline(always)]
    fn shape() -> u32 {
        shape::LIST
    }
}

/// A weak map: the count of its pairs, and their table.
pub(crate) struct WeakCell;

impl Counted for WeakCell {
    ghost use Rattle.mutator.specs.Making.{CountedCell};

    ghost which = { CountedCell.weak };

    #[inline(always)]
    fn shape() -> u32 {
        shape::WEAK
    }
}

/// Binds `x` to a new plain object with `cap` slots of its own and no field. `object` is the number
/// of objects that were made, and becomes the new one's number.
///
/// Stops with `NoRoom` where there is no room for the cell's words: three and one for each slot.
#[inline(always)]
pub fn new_plain(main: &mut Main, x: u32, object: u32, cap: u32) -> Result<(), Stop>
    requires shown { (graph : Graph) × MainShows main.old graph × (object ≡ length graph.objects) }
    requires within { IsWithin main.old.seat.space.variables field_numbers (Command.New x cap) }
    ensures carried { (graph : Graph) (names : List (List ℕ)) → MainShows main.old graph →
        object ≡ length graph.objects →
        Carries names main.old main.new graph (Command.New x cap) [] result }
    ensures binds { OnOk result (BindsMade main.old main.new x) }
{
    let shape = main.shapes().root(cap);
    let run = main.reserve(PLAIN_HEAD + cap)?;
    fill_plain(main, run.at, Header { shape, object }, cap);
    main.hold(x, Held::Ref(run.at));
    Ok(())
}

/// Makes the words at an address the cell of a plain object without fields and without a prototype.
#[inline(always)]
fn fill_plain(main: &mut Main, at: u32, header: Header, cap: u32)
    requires young { IsMadeYoung main.old at }
    requires is { IsHeader header }
    requires within { at + (PLAIN_HEAD + cap) ≤ marks_start main.old.seat.space }
    ensures filled { let words = empty_plain header cap in
        main.new.seat ≡ (with_table main.old (with_range main.old.seat.table at words)).seat }
    ensures heap { let words = empty_plain header cap in
        heap_words main.new.seat ≡ with_range (heap_words main.old.seat) at words }
    ensures paths { main.new.paths ≡ main.old.paths }
    ensures young { main.new.young ≡ main.old.young }
    ensures cycle { main.new.cycle ≡ main.old.cycle }
    ensures touches { Touches main.old main.new (new_touch plain_head (plain_head + cap) at) }
{
    main.addresses_fit();
    main.set_header(at, header);
    main.store(at, STORE_SLOT, Word::odd(odd::UNDEFINED));
    main.store(at, PROTO_SLOT, Word::odd(odd::UNDEFINED));
    main.fill_holes(at + PLAIN_HEAD, cap);
}

/// Binds `x` to a new list without elements, or to a new weak map without entries. `object` is the number of objects
/// that were made, and becomes the new one's number.
///
/// Stops with `NoRoom` where there is no room for the cell's three words.
#[inline(always)]
pub(crate) fn new_counted<C: Counted>(main: &mut Main, x: u32, object: u32) -> Result<(), Stop>
    requires shown { (graph : Graph) × MainShows main.old graph × (object ≡ length graph.objects) }
    requires within { x < main.old.seat.space.variables }
    ensures carried { (graph : Graph) (names : List (List ℕ)) → MainShows main.old graph →
        object ≡ length graph.objects →
        Carries names main.old main.new graph (making_of C.which x) [] result }
    ensures binds { OnOk result (BindsMade main.old main.new x) }
{
    let run = main.reserve(COUNTED_WORDS)?;
    let header = Header {
        shape: C::shape(),
        object,
    };
    // The variable is bound first: while the cell's words are put, its number need not be kept.
    main.hold(x, Held::Ref(run.at));
    fill_counted(main, run.at, header);
    Ok(())
}

/// Makes the words at an address the cell of a list without elements, or of a weak map without entries.
#[inline(always)]
fn fill_counted(main: &mut Main, at: u32, header: Header)
    requires young { IsMadeYoung main.old at }
    requires is { IsHeader header }
    requires within { at + COUNTED_WORDS ≤ marks_start main.old.seat.space }
    ensures filled { let words = empty_counted header in
        main.new.seat ≡ (with_table main.old (with_range main.old.seat.table at words)).seat }
    ensures heap { let words = empty_counted header in
        heap_words main.new.seat ≡ with_range (heap_words main.old.seat) at words }
    ensures paths { main.new.paths ≡ main.old.paths }
    ensures young { main.new.young ≡ main.old.young }
    ensures cycle { main.new.cycle ≡ main.old.cycle }
    ensures touches { Touches main.old main.new (new_touch count_offset 3 at) }
{
    main.addresses_fit();
    main.set_header(at, header);
    main.store(at, STORE_SLOT, Word::odd(odd::UNDEFINED));
    main.write_slot(at, COUNT, 0);
}
