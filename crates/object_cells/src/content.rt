//! What the slot of a field comes to hold for a value.
ghost use Rattle.std.specs.Prelude.{◌≡◌};
ghost use Rattle.tagged_word.specs.Words.{small};
ghost use Rattle.object_cells.specs.Contents as contents;
ghost use Rattle.object_cells.specs.Made.{store_content};

use handle_roots::Held;
use object_graph::Rep;
use tagged_word::{Word, is_small, odd};

/// What the slot of a field holds for a value.
#[derive(Clone, Copy)]
pub enum SlotContent {
    /// A tagged word.
    Tagged(Word),
    /// A raw word, in the object itself.
    Raw(u64),
    /// A reference to a box of the integer.
    Boxed(i64),
}

/// How a slot comes to hold it.
#[derive(Clone, Copy)]
pub enum SlotWrite {
    /// A tagged word is put.
    Tagged(Word),
    /// A raw word is put.
    Raw(u64),
    /// A box of the integer is made at the address, and a reference to it put.
    NewBox { at: u32, v: i64 },
    /// The integer is put into the box at the address, to which the slot refers.
    OldBox { at: u32, v: i64 },
}

/// The narrowest representation that holds a value.
#[inline(always)]
pub fn rep_of(value: Held) -> Rep
    ensures { result ≡ contents.held_rep value }
{
    match value {
        Held::Int(v) if is_small(v) => Rep::Small,
        Held::Int(_) => Rep::Wide,
        Held::Unbound | Held::Undefined | Held::Ref(_) => Rep::Tagged,
    }
}

/// What a slot that is not raw holds for an integer.
#[inline(always)]
fn small_content(v: i64) -> SlotContent
    ensures { result ≡ contents.small_content v (small v) }
{
    match Word::small(v) {
        Some(word) => SlotContent::Tagged(word),
        None => SlotContent::Boxed(v),
    }
}

/// What the slot of a field of this representation holds for an integer.
#[inline(always)]
fn integer_content(own: bool, rep: Rep, v: i64) -> SlotContent
    ensures { result ≡ contents.integer_content own rep v }
{
    match rep {
        Rep::Wide if own => SlotContent::Raw(v.cast_unsigned()),
        Rep::Wide => SlotContent::Boxed(v),
        Rep::Small | Rep::Tagged => small_content(v),
    }
}

/// What the slot of a field holds for a value that its representation can hold: an own slot of the
/// object, or one of its store.
#[inline(always)]
pub fn content_of(own: bool, rep: Rep, value: Held) -> SlotContent
    ensures { result ≡ contents.content_of own rep value }
{
    match value {
        Held::Int(v) => integer_content(own, rep, v),
        Held::Ref(at) => SlotContent::Tagged(Word::reference(at)),
        Held::Unbound | Held::Undefined => SlotContent::Tagged(Word::odd(odd::UNDEFINED)),
    }
}

/// What a slot beside an object, of any value, holds for this one.
pub fn content_for(value: Held) -> SlotContent
    ensures { result ≡ store_content value }
{
    content_of(false, rep_of(value), value)
}
