//! The table, and the rule that each step on its words keeps.
ghost use Rattle.std.specs.Prelude.{◌≡◌, ◌+◌, IfOk};
ghost use Rattle.shared_table.specs.Worlds.{beginning};

use crate::main_side::MainSide;
use crate::overview::{Counts, View};
use crate::own_words::OwnWords;
use crate::phase::Phase;
use atomic_table::{Seat, Table, TableRule};
use page_space::BOARD_WORDS;
use std::alloc::Global;
use std::sync::Arc;
use tagged_word::NoMemory;

/// The rule of the table, `KeepsRule`.
pub struct Ruled;

impl TableRule<OwnWords, View, Counts> for Ruled {
    ghost use Rattle.shared_table.specs.Keeping.{KeepsRule};
    ghost use Rattle.shared_table.specs.Worlds.{beginning};
    ghost use Rattle.shared_table.specs.declared.overview.View.TheVariants.{Main};

    ghost holds = { λ counts state. KeepsRule counts state };

    ghost first = { λ counts. Main (beginning counts) };
}

/// The words that the seats share: those of the pages, the layout words, the colours and the board, one list after
/// another. It has no slot: the type of slots is that of the own words, which a step may be told.
#[derive(Drop)]
pub struct SharedTable {
    pub(crate) table: Table<OwnWords, View, Counts, Ruled, Global>,
}

impl SharedTable {
    /// Opens a table of these sizes whose words are 0, with no cycle open, and takes the main seat. A cycle can be
    /// opened on it only if it has whole pages and a layout word for each shape that there may be (`HasSizes`).
    ///
    /// # Errors
    /// Out of memory.
    pub fn open(alloc: Global, counts: Counts) -> Result<MainSide, NoMemory>
        ensures opened { IfOk result (λ side. side.main ≡ beginning counts) }
    {
        let count = counts.old as usize
            + (counts.shapes as usize + (counts.old as usize + BOARD_WORDS as usize));
        let words = Vec::from_elem(alloc, 0u64, count)?;
        let (table, seat): (
            Table<OwnWords, View, Counts, Ruled, Global>,
            Seat<OwnWords, View>,
        ) = Table::of_words(alloc, words.as_slice(), &counts)?;
        let shared = Arc::new(alloc, SharedTable { table })?;
        Ok(MainSide {
            counts,
            phase: Phase::Quiet,
            out: 0,
            shared,
            seat,
        })
    }
}
