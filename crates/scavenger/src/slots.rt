//! Following one slot: the step of a scavenge.
ghost use Rattle.std.specs.Prelude.{◌≡◌, ℕ, ◌≤◌, Bool, List};
ghost use Rattle.std.specs.Vec.{vec_capacity};
ghost use Rattle.write_barrier.specs.MutatorState.{Mutator, MayStore};
ghost use Rattle.scav_copy.specs.Places.{StoodAt};
ghost use Rattle.scavenger.specs.Starts.{SegmentCopies};
ghost use Rattle.scavenger.specs.Filling.{Front};
ghost use Rattle.scavenger.specs.Walking.{AreSpaces, HasFollowed, MayFollow, Scavenging};

use crate::copying::home_of;
use crate::spaces::Spaces;
use crate::worker::Worker;
use tagged_word::Word;
use write_barrier::Main;

/// Follows a slot: where it refers to a word that is left, it comes to refer to the home of the cell
/// there, which is copied if it has none. A slot of a page is recorded then exactly where that home is
/// young. Most words of slots refer to none that is left, so only those that do are worth a call.
#[inline(always)]
pub(crate) fn follow(main: &mut Main, spaces: &Spaces, worker: &mut Worker, slot: u32)
    requires quiet { MayStore main.old }
    requires spaces { (all : Bool) × AreSpaces main.old.seat.space main.old.young.half all spaces.now
        × MayFollow main.old all worker.old.progress worker.old.list.items slot }
    requires room { main.old.seat.space.sizes.young ≤ vec_capacity worker.old.list }
    ensures followed { (start : Mutator) (handed : List SegmentCopies) (all : Bool) (front : Front)
        (state : Scavenging start handed main.old all worker.old.progress worker.old.list.items front)
        (place : ℕ) → AreSpaces main.old.seat.space main.old.young.half all spaces.now →
        StoodAt state.fixed state.homes slot place →
        HasFollowed start handed main.old main.new all worker.old.progress worker.new.progress worker.old.list.items
        worker.new.list.items front slot state }
    ensures capacity { vec_capacity worker.new.list ≡ vec_capacity worker.old.list }
{
    // No address is past 32 bits.
    main.addresses_fit();
    let Some(at) = Word(main.word(slot)).address() else {
        return;
    };
    if !spaces.are_left(at) {
        return;
    }
    let home = home_of(main, spaces, worker, at);
    main.store(slot, 0, Word::reference(home));
}
