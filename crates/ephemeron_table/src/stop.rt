//! Why an entry is not put.
ghost use Rattle.std.specs.Prelude.{◌≡◌};

use write_barrier::NoRoom;

/// Why an entry is not put. Nothing has changed.
#[derive(Clone, Copy)]
pub enum TableStop {
    /// The key is new, and 256 pairs of the map's table are filled, or more: how many.
    TableFull { entries: u32 },
    /// There is no room for a table or a box that the entry needs.
    Full(NoRoom),
}

impl From<NoRoom> for TableStop {
    ghost use Rattle.ephemeron_table.specs.declared.stop.TableStop.TheVariants.{Full};

    ghost from_gives = { λ room stop. stop ≡ Full room };

    fn from(room: NoRoom) -> TableStop {
        TableStop::Full(room)
    }
}
