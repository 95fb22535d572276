//! Following one word: the step of a worker.
ghost use Rattle.eden_copies.specs.Steps.{CanCopy, HasFollowed, HasHome, IsReady, IsUnseen, MayFollow};

use crate::lent_words::{eden_at, eden_cell, known_cell};
use crate::worker::Worker;
use claims::{ClaimSeat, Claims};
use crew::{Gate, Point};
use scav_copy::Home;
use shared_table::OwnWords;
use tagged_word::Word;

/// Copies a cell of which no claim was seen, and claims it for the copy. It answers for what the cell is claimed now:
/// where another worker was first, its own copy does not count, and the words are used again. The copy stands before
/// the claim is made, so whoever sees the claim is led to words that stand.
fn copy_cell<G: Gate>(
    worker: &mut Worker,
    words: &OwnWords,
    claims: &Claims,
    seat: &mut ClaimSeat,
    gate: &G,
    at: u32,
) -> u32
    requires ready { IsReady words.now claims.now worker.old seat.old }
    requires can { CanCopy words.now worker.old seat.old at }
    requires unseen { IsUnseen words.now seat.old at }
    ensures { HasHome words.now worker.old worker.new seat.old seat.new at result }
{
    let cell = known_cell(words, at);
    let to = worker.end();
    let place = at - eden_at(words);
    worker.copy_words(words, at, cell.size);
    gate.pass(Point::WorkerLoaded);
    let claimed = seat.claim(claims, place, to);
    gate.pass(Point::WorkerExchanged);
    match claimed {
        Ok(()) => {
            worker.keep(Home { from: at, to });
            to
        }
        Err(home) => {
            worker.undo(to);
            home
        }
    }
}

/// For what the cell at an address of eden is claimed. It is copied and claimed, if it is not claimed.
fn home_of<G: Gate>(
    worker: &mut Worker,
    words: &OwnWords,
    claims: &Claims,
    seat: &mut ClaimSeat,
    gate: &G,
    at: u32,
) -> u32
    requires ready { IsReady words.now claims.now worker.old seat.old }
    requires can { CanCopy words.now worker.old seat.old at }
    ensures { HasHome words.now worker.old worker.new seat.old seat.new at result }
{
    let place = at - eden_at(words);
    match seat.look(claims, place) {
        Some(home) => home,
        None => copy_cell(worker, words, claims, seat, gate, at),
    }
}

/// Follows a word, and answers which one takes its place: the reference to the copy of the cell, where it refers to one
/// of eden.
#[inline(always)]
pub(crate) fn follow<G: Gate>(
    worker: &mut Worker,
    words: &OwnWords,
    claims: &Claims,
    seat: &mut ClaimSeat,
    gate: &G,
    word: u64,
) -> u64
    requires ready { IsReady words.now claims.now worker.old seat.old }
    requires may { MayFollow words.now worker.old seat.old word }
    ensures { HasFollowed words.now worker.old worker.new seat.old seat.new word result }
{
    match eden_cell(words, word) {
        Some(at) => Word::reference(home_of(worker, words, claims, seat, gate, at)).0,
        None => word,
    }
}
