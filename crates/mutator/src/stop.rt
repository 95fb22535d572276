//! Why a command is not carried out: its fault, a heap that has no room for it, or a weak map that is full of pairs.
ghost use Rattle.std.specs.Prelude.{◌≡◌};

use ephemeron_table::TableStop;
use heap_command::FaultWord;
use list_store::{PushStop, PutStop};
use object_cells::Range;
use shape_change::FieldStop;
use shape_tree::ShapesFull;
use write_barrier::NoRoom;

/// Why a command was not carried out. The heap and the output are as they were.
#[derive(Clone, Copy)]
pub enum Stop {
    /// The command's meaning is this fault.
    Fault(FaultWord),
    /// Where cells are made, in eden or in words that were granted of a page, there is no room for the
    /// words that the command allocates, which are so many.
    NoRoom { need: u32 },
    /// An entry was refused: its map is full of pairs, so many, and some of them may be such as a full
    /// collection clears. Where one just came, the command's meaning is the fault `weakfull`.
    NoClear { entries: u32 },
}

impl From<FaultWord> for Stop {
    ghost use Rattle.mutator.specs.declared.stop.Stop.TheVariants.{Fault};

    ghost from_gives = { λ word stop. stop ≡ Fault word };

    fn from(word: FaultWord) -> Stop {
        Stop::Fault(word)
    }
}

impl From<NoRoom> for Stop {
    ghost use Rattle.mutator.specs.declared.stop.Stop.TheVariants as why;

    ghost from_gives = { λ room stop. stop ≡ why.NoRoom room.need };

    fn from(no_room: NoRoom) -> Stop {
        Stop::NoRoom { need: no_room.need }
    }
}

impl From<FieldStop> for Stop {
    ghost use Rattle.mutator.specs.Stops.{stop_of};

    ghost from_gives = { λ field stop. stop ≡ stop_of field };

    fn from(stop: FieldStop) -> Stop {
        match stop {
            FieldStop::NotPlain => Stop::Fault(FaultWord::NotObject),
            FieldStop::FieldsFull => Stop::Fault(FaultWord::FieldsFull),
            FieldStop::ShapesFull(_) => Stop::Fault(FaultWord::ShapesFull),
            FieldStop::Full(room) => Stop::NoRoom { need: room.need },
        }
    }
}

impl From<ShapesFull> for Stop {
    ghost use Rattle.heap_command.specs.declared.command.FaultWord.TheVariants as word;
    ghost use Rattle.mutator.specs.declared.stop.Stop.TheVariants.{Fault};

    ghost from_gives = { λ _ stop. stop ≡ Fault word.ShapesFull };

    fn from(_full: ShapesFull) -> Stop {
        Stop::Fault(FaultWord::ShapesFull)
    }
}

impl From<PushStop> for Stop {
    ghost use Rattle.mutator.specs.Stops.{stop_of_push};

    ghost from_gives = { λ pushing stop. stop ≡ stop_of_push pushing };

    fn from(stop: PushStop) -> Stop {
        match stop {
            PushStop::ListFull => Stop::Fault(FaultWord::ListFull),
            PushStop::Full(room) => Stop::NoRoom { need: room.need },
        }
    }
}

impl From<PutStop> for Stop {
    ghost use Rattle.mutator.specs.Stops.{stop_of_put};

    ghost from_gives = { λ putting stop. stop ≡ stop_of_put putting };

    fn from(stop: PutStop) -> Stop {
        match stop {
            PutStop::Range => Stop::Fault(FaultWord::Range),
            PutStop::Full(room) => Stop::NoRoom { need: room.need },
        }
    }
}

impl From<TableStop> for Stop {
    ghost use Rattle.mutator.specs.Stops.{stop_of_table};

    ghost from_gives = { λ putting stop. stop ≡ stop_of_table putting };

    fn from(stop: TableStop) -> Stop {
        match stop {
            TableStop::TableFull { entries } => Stop::NoClear { entries },
            TableStop::Full(room) => Stop::NoRoom { need: room.need },
        }
    }
}

impl From<Range> for Stop {
    ghost use Rattle.heap_command.specs.declared.command.FaultWord.TheVariants as word;
    ghost use Rattle.mutator.specs.declared.stop.Stop.TheVariants.{Fault};

    ghost from_gives = { λ _ stop. stop ≡ Fault word.Range };

    fn from(_range: Range) -> Stop {
        Stop::Fault(FaultWord::Range)
    }
}
