//! The prototypes of plain objects: how one is read, how a ring is found before it is made, and how one is set.
//! `get_field.rt` looks for fields along them.
ghost use Rattle.std.specs.Prelude.{◌≡◌, ℕ, Some, Option, false};
ghost use Rattle.object_graph.specs.Graphs.{Graph, PlainObject};
ghost use Rattle.object_graph.specs.Prototypes.{makes_ring};
ghost use Rattle.write_barrier.specs.MutatorState.{MainShows};
ghost use Rattle.object_cells.specs.PlainObjects.{IsPlainAt, IsShownPlain};
ghost use Rattle.shape_change.specs.Prototypes.{FindsProto, AreShownPlain, GivesProto, MaySetProto};
ghost use Rattle.shape_change.specs.Prototypes.{word_for, HasSetProto};

use tagged_word::cell::PROTO_SLOT;
use tagged_word::{Word, odd};
use write_barrier::Main;

/// The address of the prototype of the plain object at an address, if it has one. The slot holds `undefined` or a
/// reference, and `undefined` is one word.
#[inline(always)]
pub(crate) fn prototype(main: &Main, object: u32) -> Option<u32>
    requires shown { IsShownPlain main.now object }
    ensures { (graph : Graph) (plain : PlainObject) → MainShows main.now graph
        → IsPlainAt main.now graph object plain → FindsProto main.now graph plain result }
{
    main.addresses_fit();
    let word = Word(main.slot(object, PROTO_SLOT));
    if word.0 == Word::odd(odd::UNDEFINED).0 {
        None
    } else {
        Some(word.known_address())
    }
}

/// Whether the plain object at one address would be in a ring if that at the other were its prototype: it is that
/// object, or comes after it by prototypes. The objects of a chain differ, so there are fewer than words.
#[inline(never)]
pub fn would_ring(main: &Main, object: u32, target: u32) -> bool
    requires shown { AreShownPlain main.now object target }
    ensures { (graph : Graph) (one other : PlainObject) → MainShows main.now graph
        → IsPlainAt main.now graph object one → IsPlainAt main.now graph target other
        → result ≡ makes_ring graph.objects one.number (Some other.number) }
{
    let words = main.regions().count();
    let mut at = target;
    for _turn in 0..words {
        if at == object {
            return true;
        }
        let Some(next) = prototype(main, at) else {
            return false;
        };
        at = next;
    }
    unreachable!()
}

/// The word of the slot for the prototype that stands at an address, or for none.
fn proto_word(proto: Option<u32>) -> Word
    ensures { result.0 ≡ word_for proto }
{
    match proto {
        Some(at) => Word::reference(at),
        None => Word::odd(odd::UNDEFINED),
    }
}

/// Gives the plain object at an address the plain object at another as its prototype, or none. It is in no ring then.
#[inline(never)]
pub fn set_proto(main: &mut Main, object: u32, proto: Option<u32>)
    requires may_set { MaySetProto main.old object proto }
    ensures { (graph : Graph) (plain : PlainObject) (number : Option ℕ) → MainShows main.old graph
        → IsPlainAt main.old graph object plain → GivesProto main.old graph proto number
        → makes_ring graph.objects plain.number number ≡ false
        → HasSetProto main.old main.new graph object plain number }
{
    main.addresses_fit();
    main.store(object, PROTO_SLOT, proto_word(proto));
}
