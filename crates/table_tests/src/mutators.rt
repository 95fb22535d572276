//! A mutator on pages that are cut into cells: it stores references, widens cells and trims them.
ghost use Rattle.std.specs.Prelude.{◌≡◌, IfOk};
ghost use Rattle.table_tests.specs.Grids.{IsWholeGrid, StaysLent};

use crate::cells::word_at;
use crate::grids::{FILLER, LIST, NONE_RAW, ONE_RAW, blacken, shade, store, trim, widen};
use crate::kinds::{padded, put};
use shared_table::{Colour, MainSide};
use std::alloc::Global;
use tagged_word::{NoMemory, Word};

/// How many of the cells are reached when the cycle begins: the first ones. The others are not.
pub(crate) const REACHED: u32 = 1_900;

/// How many steps the mutator makes.
const STEPS: u32 = 200;

/// How often it looks at cells' colours at most while it waits for a marker.
const LOOKS: u32 = 1_000_000;

/// The cell of a node: neighbours stand far from one another.
pub(crate) fn cell_of(node: u32) -> u32 {
    (node as u64 * 1_237 % REACHED as u64) as u32
}

/// The mutator: the main seat, what the words of the pages are by its own stores, and which cells it found white.
#[derive(Drop)]
pub(crate) struct Mutator {
    pub(crate) side: MainSide,
    pub(crate) count: u32,
    // How many of the cells it has trimmed.
    pub(crate) trimmed: u32,
    pub(crate) words: Vec<u64>,
    pub(crate) grey: Vec<bool>,
    // How often it may look still while it waits.
    pub(crate) looks: u32,
    ghost whole: { IsWholeGrid side.main count trimmed },
}

/// The number of the cell that a tagged slot refers to.
pub(crate) fn slot_target(words: &[u64], count: u32, cell: u32, offset: u32) -> Option<u32> {
    let at = 4 * cell as u64;
    let end = match word_at(words, at) {
        ONE_RAW => 3,
        NONE_RAW => 4,
        LIST => 2,
        _ => 1,
    };
    if offset >= end {
        return None;
    }
    let to = Word(word_at(words, at + offset as u64)).address()?;
    if to / 4 < count { Some(to / 4) } else { None }
}

/// Sets the flag of a cell. Returns whether it was not set.
pub(crate) fn flag(flags: &mut Vec<bool>, cell: u32) -> bool {
    match flags.get_mut(cell as usize) {
        Some(is_set) => {
            let was_set = *is_set;
            *is_set = true;
            !was_set
        }
        None => false,
    }
}

impl Mutator {
    /// A mutator that has made no step so far.
    ///
    /// # Errors
    /// Out of memory.
    pub(crate) fn new(
        alloc: Global,
        side: MainSide,
        count: u32,
        words: &[u64],
    ) -> Result<Mutator, NoMemory>
        requires { IsWholeGrid side.main count 0 }
        ensures side { IfOk result (λ mutator. mutator.side ≡ side) }
        ensures count { IfOk result (λ mutator. mutator.count ≡ count) }
    {
        Ok(Mutator {
            side,
            count,
            trimmed: 0,
            words: padded(alloc, words, words.len())?,
            grey: vec![in alloc; false; count as usize]?,
            looks: LOOKS,
        })
    }

    /// Notes that a cell was white.
    fn note(&mut self, cell: u32, was_white: bool)
        ensures { StaysLent self.old.side self.new.side }
    {
        if was_white {
            flag(&mut self.grey, cell);
        }
    }

    /// Shades the cell that a slot refers to.
    fn pay(&mut self, cell: u32, offset: u32)
        ensures { StaysLent self.old.side self.new.side }
    {
        if let Some(to) = slot_target(self.words.as_slice(), self.count, cell, offset) {
            if to < self.count {
                let was_white = shade(&mut self.side, self.count, to);
                self.note(to, was_white);
            }
        }
    }

    /// Stores a reference in the prototype slot of a cell, unless it was trimmed.
    fn store(&mut self, cell: u32, to: u32)
        ensures { StaysLent self.old.side self.new.side }
    {
        if cell >= self.trimmed {
            if cell < self.count && to < self.count {
                let _counts = self.side.counts();
                let was_white = store(&mut self.side, self.count, self.trimmed, cell * 4 + 2, to);
                self.note(to, was_white);
                put(
                    &mut self.words,
                    cell as usize * 4 + 2,
                    Word::reference(to * 4).0,
                );
            }
        }
    }

    /// Widens a cell whose field then has a reference, unless it was trimmed.
    fn widen(&mut self, cell: u32, to: u32)
        ensures { StaysLent self.old.side self.new.side }
    {
        if cell >= self.trimmed {
            if cell < self.count && to < self.count {
                let _counts = self.side.counts();
                let was_white = widen(&mut self.side, self.count, self.trimmed, cell, to);
                self.note(to, was_white);
                put(&mut self.words, cell as usize * 4, NONE_RAW);
                put(
                    &mut self.words,
                    cell as usize * 4 + 3,
                    Word::reference(to * 4).0,
                );
            }
        }
    }

    /// Shades what the slots of a cell refer to, unless it was black before.
    fn pay_all(&mut self, cell: u32, was_black: bool)
        ensures { StaysLent self.old.side self.new.side }
    {
        if !was_black {
            self.pay(cell, 1);
            self.pay(cell, 2);
            self.pay(cell, 3);
        }
    }

    /// Notes the words of a cell that was trimmed.
    fn put_trimmed(&mut self, cell: u32, word: u64)
        ensures { StaysLent self.old.side self.new.side }
    {
        put(&mut self.words, cell as usize * 4, LIST);
        put(&mut self.words, cell as usize * 4 + 2, word);
        put(&mut self.words, cell as usize * 4 + 3, FILLER);
    }

    /// Trims the first cell that was not trimmed so far: it becomes a list, with a word as its length, and a filler.
    fn trim(&mut self, word: u64)
        ensures { StaysLent self.old.side self.new.side }
    {
        let cell = self.trimmed;
        if cell < self.count {
            let was_black = blacken(&mut self.side, self.count, cell);
            trim(&mut self.side, self.count, cell, word);
            self.trimmed = cell + 1;
            // The words are still those of before.
            self.pay_all(cell, was_black);
            self.put_trimmed(cell, word);
        }
    }

    /// Whether a cell is white.
    fn is_white(&mut self, cell: u32) -> bool
        ensures { StaysLent self.old.side self.new.side }
    {
        if cell >= self.count {
            return false;
        }
        let _counts = self.side.counts();
        self.side.colour(4 * cell) == Colour::White
    }

    /// Waits until a marker has reached a cell, for as many looks at its colour as are left.
    fn wait_for(&mut self, cell: u32)
        ensures { StaysLent self.old.side self.new.side }
    {
        for _look in 0..LOOKS {
            if self.looks == 0 || !self.is_white(cell) {
                return;
            }
            self.looks = self.looks.saturating_sub(1);
        }
    }

    /// The first node from one on whose cell is white; the number of nodes if there is none.
    fn next_white(&mut self, node: u32) -> u32
        ensures { StaysLent self.old.side self.new.side }
    {
        for one in node..REACHED {
            if self.is_white(cell_of(one)) {
                return one;
            }
        }
        REACHED
    }

    /// Moves what the prototype slot of one cell refers to into another, and lets the first refer to the other.
    fn carry(&mut self, from: u32, into: u32)
        ensures { StaysLent self.old.side self.new.side }
    {
        if let Some(to) = slot_target(self.words.as_slice(), self.count, from, 2) {
            self.store(into, to);
            self.store(from, into);
        }
    }

    /// Makes a step where a marker is about to be: a trim, a widening, or a move from a cell that is not reached so far
    /// to one that is. All cells that it names were reached when the cycle began. Only the length of a list looks like
    /// a reference to one that was not. What the mutator shades before a marker does, no marker visits, so in the first
    /// half of its steps it trims no cell that is white.
    fn make_step(&mut self, step: u32)
        ensures { StaysLent self.old.side self.new.side }
    {
        let front = step % STEPS * 4;
        self.wait_for(cell_of(front + 4));
        let ahead = cell_of(self.next_white(front).saturating_add(100));
        let is_late = step >= STEPS / 2;
        match step % 5 {
            0 => {
                if is_late || !self.is_white(self.trimmed) {
                    self.trim(Word::reference(REACHED * 4 + step % 100 * 4).0);
                }
            }
            1 | 3 => self.widen(ahead, cell_of(front / 2)),
            _ => self.carry(ahead, cell_of(front / 2)),
        }
    }

    /// Makes all its steps.
    pub(crate) fn make_steps(&mut self)
        ensures { StaysLent self.old.side self.new.side }
    {
        for step in 0..STEPS {
            self.make_step(step);
        }
    }
}
