//! The slots of the copies in a room, in order: also those of copies that are made on the way.
ghost use Rattle.std.specs.Prelude.{ℕ, ◌+◌, ◌<◌, ◌≤◌, length, Contains};
ghost use Rattle.page_space.specs.Extents.{marks_start};
ghost use Rattle.eden_copies.specs.Eden.{Deal, word_at, size_in, MayCopy};
ghost use Rattle.eden_copies.specs.Sides.{end_of};
ghost use Rattle.eden_copies.specs.Steps.{HasScanned, IsReady, MayFollow};
ghost use Rattle.eden_copies.specs.Copied.{GoesOn, IsCopying};

use crate::following::follow;
use crate::lent_words::{known_cell, refers_to_survivor};
use crate::worker::Worker;
use claims::{ClaimSeat, Claims};
use crew::Gate;
use scav_copy::Home;
use shared_table::OwnWords;

/// Follows a slot of a copy. Its word is read where it stood before: nothing was stored into the slot so far.
fn scan_slot<G: Gate>(
    worker: &mut Worker,
    words: &OwnWords,
    claims: &Claims,
    seat: &mut ClaimSeat,
    gate: &G,
    from: u32,
    to: u32,
)
    requires ready { IsReady words.now claims.now worker.old seat.old }
    requires may { MayFollow words.now worker.old seat.old (word_at words.now from) }
    requires there { from < marks_start words.now.space }
    requires starts { worker.old.start ≤ to }
    requires ends { to < end_of worker.old }
    requires few { length worker.old.left < worker.old.most }
    ensures { HasScanned words.now worker.old worker.new seat.old seat.new from to }
{
    // There is a word for each address before the marks.
    let _count = words.count();
    let word = words.word(from);
    let now = follow(worker, words, claims, seat, gate, word);
    worker.put(to, now);
    if refers_to_survivor(words, word) {
        worker.leave(to);
    }
}

/// Follows each slot of a copy.
fn scan_copy<G: Gate>(
    worker: &mut Worker,
    words: &OwnWords,
    claims: &Claims,
    seat: &mut ClaimSeat,
    gate: &G,
    home: Home,
)
    requires ready { IsReady words.now claims.now worker.old seat.old }
    requires among { Contains worker.old.copies home }
    requires copying { (deal : Deal) × MayCopy words.now deal × IsCopying words.now deal home.to worker.old seat.old }
    ensures copying { (deal : Deal) → MayCopy words.now deal → IsCopying words.now deal home.to worker.old seat.old →
        IsCopying words.now deal (home.to + size_in words.now home.from) worker.new seat.new }
    ensures goes { GoesOn worker.old worker.new seat.old seat.new }
{
    // There is a word for each address before the marks.
    let _count = words.count();
    let cell = known_cell(words, home.from);
    for offset in 0..cell.size {
        if cell.layout.is_scavenge_slot(cell.length, offset) {
            scan_slot(
                worker,
                words,
                claims,
                seat,
                gate,
                home.from + offset,
                home.to + offset,
            );
        }
    }
}

/// Follows each slot of its copies.
pub(crate) fn scan<G: Gate>(
    worker: &mut Worker,
    words: &OwnWords,
    claims: &Claims,
    seat: &mut ClaimSeat,
    gate: &G,
)
    requires ready { IsReady words.now claims.now worker.old seat.old }
    requires copying { (deal : Deal) × MayCopy words.now deal
        × IsCopying words.now deal worker.old.start worker.old seat.old }
    ensures copying { (deal : Deal) → MayCopy words.now deal →
        IsCopying words.now deal worker.old.start worker.old seat.old →
        IsCopying words.now deal (end_of worker.new) worker.new seat.new }
    ensures goes { GoesOn worker.old worker.new seat.old seat.new }
{
    // There is a word for each address before the marks.
    let _count = words.count();
    let mut next = 0;
    'copies: while next < worker.count() {
        let home = worker.copy(next);
        scan_copy(worker, words, claims, seat, gate, home);
        next += 1;
    }
}
