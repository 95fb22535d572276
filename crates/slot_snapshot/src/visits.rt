//! Visits of cells, and what they keep.
ghost use Rattle.std.specs.Prelude.{◌≡◌, ◌≤◌, [], All, Contains, map};
ghost use Rattle.std.specs.Vec.{vec_capacity};
ghost use Rattle.tagged_word.specs.Cells.{tagged_offsets};
ghost use Rattle.mark_world.specs.Conditions.{MayBegin};
ghost use Rattle.slot_snapshot.specs.Loads.{offset_of, with_slots, AreSlots, IsAwaiting, IsRead};
ghost use Rattle.slot_snapshot.specs.Visited.{IsVisited};

use crate::naming::{Slots, load_slots};
use crew::{Gate, Point};
use mark_world::SnapSlot;
use shared_table::{Colour, HelperSeat, SharedTable};
use std::alloc::Global;
use tagged_word::NoMemory;
use tagged_word::cell::WORDS_MOST;

/// What was read of a cell: its header, and its slots in the order in which they were read.
#[derive(Clone, Copy)]
pub struct Snapshot<'a> {
    pub header: u64,
    pub slots: &'a [SnapSlot],
}

/// What a visit of a cell comes to.
#[derive(Clone, Copy)]
pub enum Visit<'a> {
    /// The visit made the cell black, and what it read is to be visited.
    Kept(Snapshot<'a>),
    /// Another one had made the cell black: what was read may be torn, and is not to be visited.
    Dropped { found: Colour },
}

/// The places for the slots of one cell at a time.
#[derive(Drop)]
pub struct Helper {
    slots: Vec<SnapSlot>,
    ghost room: { 2048 ≤ vec_capacity slots },
}

impl Helper {
    /// Places for the slots of any cell. It takes all the memory that it needs: later calls take none.
    ///
    /// # Errors
    /// Out of memory.
    pub fn new(alloc: Global) -> Result<Helper, NoMemory> {
        Ok(Helper {
            slots: Vec::with_capacity(alloc, WORDS_MOST as usize)?,
        })
    }

    /// Visits a grey cell that waits with a seat: loads what it needs of the cell, word by word, and then makes it
    /// black if it is grey still. The gate is passed before the exchange and after it.
    #[inline]
    pub fn visit<G: Gate>(
        &mut self,
        seat: &mut HelperSeat,
        table: &SharedTable,
        cell: u32,
        gate: &G,
    ) -> Visit<'_>
        requires own { seat.old.table ≡ table.now.table.shared.table_id }
        requires may { MayBegin seat.old.lent.view }
        requires waits { Contains seat.old.lent.view.grey cell }
        ensures { IsVisited seat.old seat.new cell result }
    {
        let header = self.read(seat, table, cell);
        gate.pass(Point::HelperLoaded);
        let found = seat.settle(table, cell);
        gate.pass(Point::HelperExchanged);
        match found {
            Colour::Grey => Visit::Kept(Snapshot {
                header,
                slots: self.slots.as_slice(),
            }),
            _ => Visit::Dropped { found },
        }
    }

    /// Loads the header of a cell, what tells its slots, and these. Returns the header.
    fn read(&mut self, seat: &mut HelperSeat, table: &SharedTable, cell: u32) -> u64
        requires own { seat.old.table ≡ table.now.table.shared.table_id }
        requires may { MayBegin seat.old.lent.view }
        requires waits { Contains seat.old.lent.view.grey cell }
        ensures { IsRead seat.old seat.new cell result self.new.slots.items }
    {
        self.slots.clear();
        let header = seat.load_header(table, cell);
        if let Some(slots) = load_slots(seat, table, cell, header) {
            self.read_slots(seat, table, cell, slots);
        }
        header
    }

    /// Loads each slot of a cell.
    fn read_slots(&mut self, seat: &mut HelperSeat, table: &SharedTable, cell: u32, slots: Slots)
        requires own { seat.old.table ≡ table.now.table.shared.table_id }
        requires awaits { IsAwaiting seat.old.lent.view cell slots }
        requires slots { AreSlots slots }
        requires none { self.old.slots.items ≡ [] }
        ensures seat { seat.new ≡ record seat.old { lent = with_slots seat.old.lent self.new.slots.items } }
        ensures read { All (λ offset. Contains (map offset_of self.new.slots.items) offset)
            (tagged_offsets slots.layout slots.length) }
    {
        for offset in 1..slots.size {
            if slots.layout.is_tagged(slots.length, offset) {
                let word = seat.load_slot(table, cell, offset);
                self.slots.push_reserved(SnapSlot { offset, word });
            }
        }
    }
}
