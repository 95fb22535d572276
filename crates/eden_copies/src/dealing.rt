//! The slots outside eden that are dealt to a worker: of the first root words and the recorded slots, in order, each of
//! its turn.
ghost use Rattle.std.specs.Prelude.{◌≡◌, ℕ, ◌+◌, ◌<◌, ◌≤◌, List, length};
ghost use Rattle.page_space.specs.Extents.{eden_start, marks_start};
ghost use Rattle.eden_copies.specs.Eden.{deal_of, word_at, MayCopy};
ghost use Rattle.eden_copies.specs.Steps.{HasRead, IsReady, MayFollow};
ghost use Rattle.eden_copies.specs.Copied.{GoesOn, IsDealing};

use crate::following::follow;
use crate::worker::Worker;
use claims::{ClaimSeat, Claims};
use crew::Gate;
use remembered_set::Remembered;
use shared_table::OwnWords;

/// Follows the word of a slot that was dealt. Nothing is stored into the slot.
fn follow_slot<G: Gate>(
    worker: &mut Worker,
    words: &OwnWords,
    claims: &Claims,
    seat: &mut ClaimSeat,
    gate: &G,
    slot: u32,
)
    requires ready { IsReady words.now claims.now worker.old seat.old }
    requires may { MayFollow words.now worker.old seat.old (word_at words.now slot) }
    requires there { slot < marks_start words.now.space }
    ensures { HasRead words.now worker.old worker.new seat.old seat.new slot }
{
    // There is a word for each address before the marks.
    let _count = words.count();
    let word = words.word(slot);
    let _now = follow(worker, words, claims, seat, gate, word);
}

/// Follows the first root words that are dealt.
pub(crate) fn follow_roots<G: Gate>(
    worker: &mut Worker,
    words: &OwnWords,
    claims: &Claims,
    seat: &mut ClaimSeat,
    gate: &G,
    first: u32,
    every: u32,
)
    requires ready { IsReady words.now claims.now worker.old seat.old }
    requires some { 0 < every }
    requires dealing { (recorded : List ℕ) × let deal = deal_of recorded first every in
        MayCopy words.now deal × IsDealing words.now deal 0 worker.old seat.old }
    ensures dealing { (recorded : List ℕ) → let deal = deal_of recorded first every in
        MayCopy words.now deal → IsDealing words.now deal 0 worker.old seat.old →
        IsDealing words.now deal words.now.space.variables worker.new seat.new }
    ensures goes { GoesOn worker.old worker.new seat.old seat.new }
{
    // There is a word for each address before the marks.
    let _count = words.count();
    let regions = words.regions();
    for variable in 0..regions.variables() {
        if variable % every == first {
            let slot = regions.root_at(variable);
            follow_slot(worker, words, claims, seat, gate, slot);
        }
    }
}

/// Follows the recorded slots that are dealt, once the root words are done.
pub(crate) fn follow_recorded<G: Gate>(
    worker: &mut Worker,
    words: &OwnWords,
    recorded: &Remembered,
    claims: &Claims,
    seat: &mut ClaimSeat,
    gate: &G,
    first: u32,
    every: u32,
)
    requires ready { IsReady words.now claims.now worker.old seat.old }
    requires some { 0 < every }
    requires bound { recorded.now.bound ≡ eden_start words.now.space }
    requires may { MayCopy words.now (deal_of recorded.now.slots first every) }
    requires dealing { let deal = deal_of recorded.now.slots first every in
        IsDealing words.now deal words.now.space.variables worker.old seat.old }
    ensures dealing { let deal = deal_of recorded.now.slots first every in
        IsDealing words.now deal (words.now.space.variables + length recorded.now.slots) worker.new seat.new }
    ensures goes { GoesOn worker.old worker.new seat.old seat.new }
{
    // There is a word for each address before the marks.
    let _count = words.count();
    let mut number = words.regions().variables();
    let mut from = 0;
    'recorded: while let Some(slot) = recorded.next(from) {
        if number % every == first {
            follow_slot(worker, words, claims, seat, gate, slot);
        }
        number += 1;
        from = slot + 1;
    }
}
