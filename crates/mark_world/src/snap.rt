//! What a helper has read of one cell.
ghost use Rattle.std.specs.Prelude.{◌≡◌, IfOk};

use core_parts::Items;
use std::alloc::Global;
use tagged_word::NoMemory;

/// A slot of a cell, by its offset, and the word that was read there.
#[derive(Clone, Copy)]
pub struct SnapSlot {
    pub offset: u32,
    pub word: u64,
}

/// A slot snapshot: what was read of the cell at an address, each word by a load of its own, and
/// each maybe at another moment.
#[derive(Drop)]
pub struct Snap {
    /// The address of the cell.
    pub cell: u32,
    /// Its first word.
    pub header: u64,
    /// The layout word of the shape that the header has, once it was read.
    pub layout: Option<u64>,
    /// The cell's second word, once it was read as a length.
    pub length: Option<u64>,
    /// The slots that were read, in the order of their loads.
    pub slots: Items<SnapSlot>,
}

impl Snap {
    /// The same snap in memory of its own.
    pub fn copied(&self, alloc: Global) -> Result<Snap, NoMemory>
        ensures { IfOk result (λ copy. copy ≡ self.now) }
    {
        Ok(Snap {
            cell: self.cell,
            header: self.header,
            layout: self.layout,
            length: self.length,
            slots: self.slots.copied(alloc)?,
        })
    }
}
