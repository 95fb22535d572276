//! The steps of marking.

/// One step of the mutator or of a helper. An address is that of a word of the heap; a word is its
/// bits.
#[derive(Clone, Copy)]
pub enum Event {
    /// A word is read, and nothing is learned of it.
    Look {},
    /// The mutator stores a word in a tagged slot, or in a slot that may become one. The target is owed.
    StoreSlot { at: u32, word: u64 },
    /// The mutator stores a word where no helper reads one that it visits by.
    StoreOwned { at: u32, word: u64 },
    /// The mutator changes the shape of a plain cell.
    StoreHeader { at: u32, word: u64 },
    /// The mutator puts a new layout word in its place.
    AddLayout { shape: u32, word: u64 },
    /// The mutator makes a white cell grey.
    ShadeMain { at: u32 },
    /// The mutator makes a cell black.
    Blacken { at: u32 },
    /// The mutator makes a cell that it has just made black.
    NewBlack { at: u32 },
    /// The mutator lends a seat.
    Lend {},
    /// The mutator takes a seat back.
    Return { helper: u32 },
    /// A helper reads the header of a grey or black cell: its snap begins.
    LoadHeader { helper: u32, cell: u32 },
    /// A helper reads the layout word of the shape of its snap.
    LoadLayout { helper: u32 },
    /// A helper reads the length that the slots of its snap are counted by.
    LoadLength { helper: u32 },
    /// A helper reads a slot of its snap.
    LoadSlot { helper: u32, offset: u32 },
    /// A helper makes the cell of its snap black, where it is grey still: its snap ends.
    Settle { helper: u32 },
    /// A helper makes a white cell grey that it is to visit.
    ShadeHelper { helper: u32, at: u32 },
    /// A helper gives a grey cell to the board.
    Give { helper: u32, place: u32, at: u32 },
    /// A helper takes a grey cell from the board.
    Take { helper: u32, place: u32 },
    /// The mutator gives a grey cell to the board.
    GiveMain { place: u32, at: u32 },
    /// The mutator takes a grey cell from the board.
    TakeMain { place: u32 },
}
