//! Which slots a cell has, by its header, its layout word and its length, each of which may be no such word.
ghost use Rattle.std.specs.Prelude.{◌≡◌, ◌↔◌, IsSome, IfSome, IsTrue, Some};
ghost use Rattle.tagged_word.specs.Layouts.{IsLayout};
ghost use Rattle.mark_world.specs.Naming.{is_in_page, known_size, named_slots};
ghost use Rattle.mark_world.specs.Steps.{snap_begun};
ghost use Rattle.slot_snapshot.specs.Loads.{named_as, shape_in, AreSlots, IsLoaded, IsLaid};

use mark_world::{known_size, page_end};
use shared_table::{HelperSeat, SharedTable};
use tagged_word::{Header, LayoutWord, Word, shape};

/// The slots of a cell: those that marking visits, by its layout and its length, all within a size.
#[derive(Clone, Copy)]
pub(crate) struct Slots {
    pub(crate) layout: LayoutWord,
    pub(crate) length: u64,
    pub(crate) size: u32,
}

impl Slots {
    /// Those of a cell with a layout and a length, if it ends in the page that it begins in.
    fn of(cell: u32, layout: LayoutWord, length: u64) -> Option<Slots>
        requires { IsLayout layout }
        ensures names { named_as result ≡ named_slots cell layout length }
        ensures slots { IfSome result AreSlots }
        ensures inside { IsSome result ↔ IsTrue (is_in_page cell (known_size layout length)) }
    {
        let size = known_size(layout, length)?;
        if cell as u64 + size as u64 <= page_end(cell) {
            Some(Slots {
                layout,
                length,
                size,
            })
        } else {
            None
        }
    }
}

/// The shape of a header, if the word is one's and there may be such a shape.
#[inline(always)]
fn shape_of(header: u64) -> Option<u32>
    ensures { result ≡ shape_in header }
{
    let header = Header::parse(Word(header))?;
    if header.shape < shape::COUNT {
        Some(header.shape)
    } else {
        None
    }
}

/// Loads the layout word of the cell whose header was loaded, and its length if that tells its slots. Returns the
/// slots, or nothing where the words that were found are those of no cell in its page.
pub(crate) fn load_slots(
    seat: &mut HelperSeat,
    table: &SharedTable,
    cell: u32,
    header: u64,
) -> Option<Slots>
    requires own { seat.old.table ≡ table.now.table.shared.table_id }
    requires begun { seat.old.lent.view.snap ≡ Some (snap_begun cell header) }
    ensures { IsLoaded seat.old seat.new cell result }
{
    let shape = shape_of(header)?;
    let word = seat.load_layout(table, shape);
    let layout = LayoutWord::parse(word)?;
    if layout.kind.marks_by_length() {
        load_long(seat, table, cell, layout)
    } else {
        Slots::of(cell, layout, 0)
    }
}

/// Loads the length of a cell whose layout was loaded, and returns its slots.
fn load_long(
    seat: &mut HelperSeat,
    table: &SharedTable,
    cell: u32,
    layout: LayoutWord,
) -> Option<Slots>
    requires own { seat.old.table ≡ table.now.table.shared.table_id }
    requires laid { IsLaid seat.old.lent.view cell layout }
    requires layout { IsLayout layout }
    ensures { IsLoaded seat.old seat.new cell result }
{
    Slots::of(cell, layout, 0)?;
    let length = seat.load_length(table, cell);
    Slots::of(cell, layout, length)
}
