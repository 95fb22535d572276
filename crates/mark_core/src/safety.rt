//! Which words stores may leave in slots and as headers.
ghost use Rattle.std.specs.Prelude.{◌≡◌, ◌↔◌, IsTrue, IfSome};
ghost use Rattle.tagged_word.specs.Layouts.{IsLayout};
ghost use Rattle.tagged_word.specs.Readings.{shape_layout};
ghost use Rattle.mark_world.specs.Safety.{is_slot_class, FitsTaggedSlot, laid_in, plain_slots, Includes};
ghost use Rattle.mark_world.specs.Safety.{IsSafeChange, IsSafe};

use mark_world::Laid;
use tagged_word::{Class, Header, Kind, LayoutWord, Word, odd, shape};

/// Whether a tagged slot may hold a word of a class.
fn is_slot_class(class: Class) -> bool
    ensures { result ≡ is_slot_class class }
{
    match class {
        Class::Small(_) => true,
        Class::Ref(_) => true,
        Class::Odd(code) => code == odd::UNDEFINED || code == odd::HOLE,
    }
}

/// Whether a tagged slot may hold a word.
pub(crate) fn is_slot_word(word: u64) -> bool
    ensures { IsTrue result ↔ FitsTaggedSlot word }
{
    match Word(word).class() {
        Some(class) => is_slot_class(class),
        None => false,
    }
}

/// The layout of a shape, if it is in place.
fn shape_layout(layouts: &[u64], number: u32) -> Option<LayoutWord>
    ensures layout { result ≡ shape_layout layouts.now number }
    ensures is { IfSome result IsLayout }
{
    if number < shape::COUNT {
        LayoutWord::parse(*layouts.get(number as usize)?)
    } else {
        None
    }
}

/// The header of a word with the layout of its shape, if both are in place.
pub(crate) fn laid_in(layouts: &[u64], word: u64) -> Option<Laid>
    ensures laid { result ≡ laid_in layouts.now word }
    ensures is { IfSome result (λ laid. IsLayout laid.layout) }
{
    let header = Header::parse(Word(word))?;
    let layout = shape_layout(layouts, header.shape)?;
    Some(Laid { header, layout })
}

/// Whether a cell of this kind is a plain one.
fn is_plain(kind: Kind) -> bool
    ensures { IsTrue result ↔ (kind ≡ Kind.Plain) }
{
    match kind {
        Kind::Plain => true,
        _ => false,
    }
}

/// The most words of a plain cell.
pub(crate) const PLAIN_MOST: u32 = 11;

/// Whether each slot that is tagged under one layout is tagged under another.
fn includes(new: Laid, old: Laid) -> bool
    requires is { IsLayout old.layout }
    requires plain { old.layout.kind ≡ Kind.Plain }
    ensures { IsTrue result ↔ Includes (plain_slots new) (plain_slots old) }
{
    for offset in 0..PLAIN_MOST {
        if old.layout.is_tagged(0, offset) && !new.layout.is_tagged(0, offset) {
            return false;
        }
    }
    true
}

/// Whether one header is a safe change of another.
fn is_safe_change(old: Laid, new: Laid) -> bool
    requires { IsLayout old.layout }
    ensures { IsTrue result ↔ IsSafeChange old new }
{
    if !is_plain(old.layout.kind) || !is_plain(new.layout.kind) {
        return false;
    }
    old.header.object == new.header.object && old.layout.cap == new.layout.cap && includes(new, old)
}

/// Whether a word is a safe change of another, as the header of a cell.
pub(crate) fn is_safe(layouts: &[u64], before: u64, after: u64) -> bool
    ensures { IsTrue result ↔ IsSafe layouts.now before after }
{
    let Some(old) = laid_in(layouts, before) else {
        return false;
    };
    let Some(new) = laid_in(layouts, after) else {
        return false;
    };
    is_safe_change(old, new)
}
