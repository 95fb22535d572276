//! Why a field is not set.
ghost use Rattle.std.specs.Prelude.{◌≡◌};

use shape_tree::ShapesFull;
use write_barrier::NoRoom;

/// Why a field is not set. Nothing has changed.
#[derive(Clone, Copy)]
pub enum FieldStop {
    /// The object is no plain one.
    NotPlain,
    /// The name is new, and the object has 64 fields.
    FieldsFull,
    /// There may not be as many field paths.
    ShapesFull(ShapesFull),
    /// The young generation has no room for a new store or box.
    Full(NoRoom),
}

impl From<ShapesFull> for FieldStop {
    ghost use Rattle.shape_change.specs.declared.stop.FieldStop.TheVariants as stop;

    ghost from_gives = { λ full made. made ≡ stop.ShapesFull full };

    fn from(full: ShapesFull) -> FieldStop {
        FieldStop::ShapesFull(full)
    }
}

impl From<NoRoom> for FieldStop {
    ghost use Rattle.shape_change.specs.declared.stop.FieldStop.TheVariants as stop;

    ghost from_gives = { λ no_room made. made ≡ stop.Full no_room };

    fn from(no_room: NoRoom) -> FieldStop {
        FieldStop::Full(no_room)
    }
}
