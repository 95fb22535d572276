//! Markers.
ghost use Rattle.std.specs.Prelude.{◌≡◌, ◌≤◌, [], Some, None, IfOk};
ghost use Rattle.std.specs.Arc.{arc_value};
ghost use Rattle.mark_world.specs.Steps.{lent};
ghost use Rattle.cell_list.specs.Listing.{HasJoined};
ghost use Rattle.marker.specs.Markers.{HasMarked};

use crate::marking::{Outcome, mark};
use crate::turn::Room;
use cell_list::CellList;
use crew::{Gate, Task};
use shared_table::{HelperSeat, SharedTable};
use slot_snapshot::Helper;
use std::alloc::Global;
use std::marker::Model;
use std::sync::Arc;
use tagged_word::NoMemory;

/// How many turns a task makes.
const TASK_TURNS: u32 = 4096;

/// A marker: a table, a seat there or none, and the cells that wait with it.
#[derive(Drop)]
pub struct Marker {
    table: Arc<SharedTable, Global>,
    seat: Option<HelperSeat>,
    room: Room,
}

impl Model for Marker {
    ghost use Rattle.marker.specs.Markers.{Marking};

    ghost Value = { Marking };

    ghost use Rattle.marker.specs.Markers.{marking_of, IsMarker};

    ghost view = { marking_of };

    ghost invariant = { IsMarker };
}

impl Marker {
    /// A marker at a table, without a seat, with room for the cells of so many words. It takes all the memory that it
    /// needs: later calls take none.
    ///
    /// # Errors
    /// Out of memory.
    pub fn new(
        alloc: Global,
        table: Arc<SharedTable, Global>,
        words: u32,
    ) -> Result<Marker, NoMemory>
        ensures { IfOk result (λ marker. marker ≡ record {
          table = (arc_value table).table.shared.table_id;
          seat = None;
          listing = record { bound = words; addresses = [] };
        }) }
    {
        let room = Room {
            helper: Helper::new(alloc)?,
            list: CellList::new(alloc, words)?,
            place: 0,
        };
        Ok(Marker {
            table,
            seat: None,
            room,
        })
    }

    /// Takes a seat that was just lent.
    pub fn attach(&mut self, seat: HelperSeat)
        requires free { self.old.seat ≡ None }
        requires own { seat.table ≡ self.old.table }
        requires fresh { seat.lent.view ≡ lent }
        requires empty { self.old.listing.addresses ≡ [] }
        requires room { seat.lent.counts.old ≤ self.old.listing.bound }
        ensures { self.new ≡ record self.old { seat = Some seat } }
    {
        self.seat = Some(seat);
    }

    /// Gives its seat back, if it has one. The cells that wait stay on the list.
    pub fn detach(&mut self) -> Option<HelperSeat>
        ensures seat { result ≡ self.old.seat }
        ensures free { self.new ≡ record self.old { seat = None } }
    {
        self.seat.take()
    }

    /// Lists the cells that wait on another list, and has none then.
    pub fn hand_over(&mut self, to: &mut CellList)
        requires free { self.old.seat ≡ None }
        requires room { self.old.listing.bound ≤ to.old.bound }
        ensures joined { HasJoined to.old to.new self.old.listing }
        ensures bound { to.new.bound ≡ to.old.bound }
        ensures empty { self.new ≡ record self.old { listing = record self.old.listing { addresses = [] } } }
    {
        to.join(&self.room.list);
        self.room.list.clear();
    }

    /// Makes so many turns at most: a turn visits a cell that waits, or else looks at the next place of the board.
    /// Without a seat it does nothing.
    pub fn mark_some<G: Gate>(&mut self, turns: u32, gate: &G) -> Option<Outcome>
        ensures { HasMarked self.old self.new turns result }
    {
        match &mut self.seat {
            Some(seat) => Some(mark(seat, &self.table, &mut self.room, turns, gate)),
            None => None,
        }
    }
}

impl<G: Gate> Task<G> for Marker {
    ghost use Rattle.std.specs.Prelude.{Option};
    ghost use Rattle.marker.specs.declared.marking.Outcome.{Outcome};
    ghost use Rattle.marker.specs.Markers.{HasMarked};

    ghost ready = { λ marker gate. Unit {0} };

    ghost done = { λ before gate after. (outcome : Option Outcome) × HasMarked before after 4096 outcome };

    fn run(&mut self, context: &G) {
        self.mark_some(TASK_TURNS, context);
    }
}
