//! The world of a scavenge.

use crate::workers::Workers;
use core_parts::Items;
use scav_copy::{Home, Room};

/// All that the workers of a scavenge read and change.
#[derive(Drop)]
pub struct World {
    /// The words as they stood when the first worker began.
    pub before: Items<u64>,
    /// The words now.
    pub words: Items<u64>,
    /// The layout word of each shape.
    pub layouts: Items<u64>,
    /// The cells that are to be copied where they are reached.
    pub cells: Items<u32>,
    /// The slots outside that may refer to them.
    pub slots: Items<u32>,
    /// The words that workers may fill.
    pub rooms: Items<Room>,
    /// The copies that count, in ascending order of their cells.
    pub homes: Items<Home>,
    /// The words over which workers hand copies to one another.
    pub board: Items<u64>,
    /// What each worker knows.
    pub workers: Workers,
}
