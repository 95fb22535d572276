//! What is left once markers have made their turns: the mutator visits the cells that wait, and the cells are counted.
ghost use Rattle.std.specs.Prelude.{◌<◌};
ghost use Rattle.page_space.specs.Extents.{board_words};
ghost use Rattle.table_tests.specs.Grids.{IsOpenGrid};

use crate::grids::{blacken, shade};
use crate::mutators::{flag, slot_target};
use page_space::BOARD_WORDS;
use shared_table::{Colour, MainSide};
use std::alloc::Global;
use tagged_word::NoMemory;
use work_board::main_take;

/// Which cells are reached from the first one.
pub(crate) fn reach(alloc: Global, words: &[u64], count: u32) -> Result<Vec<bool>, NoMemory> {
    let mut found = vec![in alloc; false; count as usize]?;
    let mut waiting = Vec::new(alloc);
    waiting.push(0u32)?;
    for _turn in 0..100_000u32 {
        let Some(cell) = waiting.pop() else {
            return Ok(found);
        };
        if flag(&mut found, cell) {
            for offset in 1..4 {
                if let Some(to) = slot_target(words, count, cell, offset) {
                    waiting.push(to)?;
                }
            }
        }
    }
    Ok(found)
}

/// Takes the cell at a place of the board, if one is there.
fn take_cell(side: &mut MainSide, count: u32, place: u32) -> Option<u32>
    requires grid { IsOpenGrid side.old.main count }
    requires on_board { place < board_words }
    ensures grid { IsOpenGrid side.new.main count }
{
    let at = main_take(side, place)?;
    Some(at / 4)
}

/// The main seat once no other is out, and the cells that wait to be visited.
#[derive(Drop)]
pub(crate) struct Scan {
    side: MainSide,
    count: u32,
    waiting: Vec<u32>,
    ghost grid: { IsOpenGrid side.main count },
}

impl Scan {
    /// A scan with no cell that waits.
    pub(crate) fn new(alloc: Global, side: MainSide, count: u32) -> Scan
        requires { IsOpenGrid side.main count }
    {
        Scan {
            side,
            count,
            waiting: Vec::new(alloc),
        }
    }

    /// Lets the cells at these addresses wait.
    fn wait_for(&mut self, addresses: &[u32]) -> Result<(), NoMemory> {
        for at in addresses {
            self.waiting.push(*at / 4)?;
        }
        Ok(())
    }

    /// Lets the cells wait that have a flag.
    fn wait_for_flags(&mut self, flags: &[bool]) -> Result<(), NoMemory> {
        for cell in 0..self.count {
            if is_set(flags, cell) {
                self.waiting.push(cell)?;
            }
        }
        Ok(())
    }

    /// Lets the cells of the board wait.
    fn wait_for_board(&mut self) -> Result<(), NoMemory> {
        for place in 0..BOARD_WORDS {
            if let Some(cell) = take_cell(&mut self.side, self.count, place) {
                self.waiting.push(cell)?;
            }
        }
        Ok(())
    }

    /// Lets all cells wait that are left: those of both markers' lists, those that have a flag, and those of the board.
    pub(crate) fn wait_for_all(
        &mut self,
        lists: [&[u32]; 2],
        flags: &[bool],
    ) -> Result<(), NoMemory> {
        self.wait_for(lists[0])?;
        self.wait_for(lists[1])?;
        self.wait_for_flags(flags)?;
        self.wait_for_board()
    }

    /// Shades a cell, which waits then if it was white.
    fn shade(&mut self, cell: u32) -> Result<(), NoMemory> {
        if cell < self.count {
            if shade(&mut self.side, self.count, cell) {
                self.waiting.push(cell)?;
            }
        }
        Ok(())
    }

    /// Makes a cell black, and shades what it refers to, unless it was black.
    fn visit(&mut self, words: &[u64], cell: u32) -> Result<(), NoMemory> {
        if cell >= self.count {
            return Ok(());
        }
        if blacken(&mut self.side, self.count, cell) {
            return Ok(());
        }
        for offset in 1..4 {
            if let Some(to) = slot_target(words, self.count, cell, offset) {
                self.shade(to)?;
            }
        }
        Ok(())
    }

    /// Visits cells until none waits.
    pub(crate) fn run(&mut self, words: &[u64]) -> Result<(), NoMemory> {
        for _turn in 0..100_000u32 {
            let Some(cell) = self.waiting.pop() else {
                return Ok(());
            };
            self.visit(words, cell)?;
        }
        Ok(())
    }

    /// The colour of a word, if the pages have its address.
    fn colour(&mut self, at: u32) -> Option<Colour> {
        if at < self.side.counts().old {
            Some(self.side.colour(at))
        } else {
            None
        }
    }
}

/// How many cells were reached when the cycle began; how many are reached at its end and not black; how many are black
/// that were neither reached nor made; and how many are grey.
#[derive(Clone, Copy, Debug, PartialEq, Eq)]
pub(crate) struct Counted {
    pub(crate) reached: u32,
    pub(crate) missed: u32,
    pub(crate) extra: u32,
    pub(crate) grey: u32,
}

/// Adds one to a number where something holds.
fn count_if(number: &mut u32, holds: bool) {
    if holds {
        *number = number.saturating_add(1);
    }
}

/// Whether a list has a flag that is set.
fn is_set(flags: &[bool], cell: u32) -> bool {
    flags.get(cell as usize).copied().unwrap_or(false)
}

/// Counts the cells.
pub(crate) fn count_cells(
    scan: &mut Scan,
    before: &[bool],
    after: &[bool],
    trimmed: u32,
) -> Counted {
    let mut counted = Counted {
        reached: 0,
        missed: 0,
        extra: 0,
        grey: 0,
    };
    for at in 0..scan.side.counts().old {
        let colour = scan.colour(at);
        let cell = at / 4;
        let starts = at % 4 == 0;
        let was_reached = starts && is_set(before, cell);
        let is_reached = starts && is_set(after, cell);
        let was_made = at % 4 == 3 && cell < trimmed;
        let is_black = colour == Some(Colour::Black);
        count_if(&mut counted.reached, was_reached);
        count_if(&mut counted.missed, is_reached && !is_black);
        count_if(&mut counted.extra, is_black && !was_reached && !was_made);
        count_if(&mut counted.grey, colour == Some(Colour::Grey));
    }
    counted
}
