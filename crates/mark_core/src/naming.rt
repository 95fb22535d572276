//! What a snap names, and what of it is still to be read.
ghost use Rattle.std.specs.Prelude.{◌≡◌, ◌==◌, ◌↔◌, IsTrue, IfSome};
ghost use Rattle.tagged_word.specs.Layouts.{IsLayout};
ghost use Rattle.mark_world.specs.Naming.{Named, known_size, is_in_page, named_slots, named_unread};
ghost use Rattle.mark_world.specs.Naming.{named_long, named_laid, named_shaped, named_headed, named};
ghost use Rattle.mark_world.specs.Naming.{is_shape, read_offsets, IsToRead, IsReadOut};
ghost use Rattle.mark_core.specs.Names.{named_by, IsShort};
ghost use Rattle.std.specs.List.{All, Contains, list_any};
ghost use Rattle.tagged_word.specs.Cells.{tagged_offsets};

use mark_world::{Snap, SnapSlot, known_size, page_end};
use tagged_word::cell::WORDS_MOST;
use tagged_word::{Header, LayoutWord, Word, shape};

/// What a snap names.
#[derive(Clone, Copy)]
pub(crate) enum Name {
    /// A word that tells it is still unread.
    Unread,
    /// No cell.
    NoCell,
    /// A cell of this layout and length.
    Cell(LayoutWord, u64),
}

/// Whether a cell of a size ends in the page that it begins in.
fn is_in_page(start: u32, size: Option<u32>) -> bool
    ensures { result ≡ is_in_page start size }
{
    match size {
        Some(size) => start as u64 + size as u64 <= page_end(start),
        None => false,
    }
}

/// A cell with a layout and a length.
fn name_slots(start: u32, layout: LayoutWord, long: u64) -> Name
    requires { IsLayout layout }
    ensures name { named_by result ≡ named_slots start layout long }
    ensures fits { IsShort result }
{
    if is_in_page(start, known_size(layout, long)) {
        Name::Cell(layout, long)
    } else {
        Name::NoCell
    }
}

/// A cell of which marking asks the length, before it is read.
fn name_unread(start: u32, layout: LayoutWord) -> Name
    ensures name { named_by result ≡ named_unread start layout }
    ensures fits { IsShort result }
{
    if is_in_page(start, known_size(layout, 0)) {
        Name::Unread
    } else {
        Name::NoCell
    }
}

/// A cell with a layout, by the length that was read.
fn name_long(start: u32, layout: LayoutWord, long: Option<u64>) -> Name
    requires { IsLayout layout }
    ensures name { named_by result ≡ named_long start layout long }
    ensures fits { IsShort result }
{
    match long {
        Some(long) => name_slots(start, layout, long),
        None => name_unread(start, layout),
    }
}

/// A cell with a layout, if its word is one's.
fn name_laid(start: u32, long: Option<u64>, layout: Option<LayoutWord>) -> Name
    requires { IfSome layout IsLayout }
    ensures name { named_by result ≡ named_laid start long layout }
    ensures fits { IsShort result }
{
    match layout {
        Some(layout) => name_by_kind(start, long, layout),
        None => Name::NoCell,
    }
}

/// A cell with this layout.
fn name_by_kind(start: u32, long: Option<u64>, layout: LayoutWord) -> Name
    requires { IsLayout layout }
    ensures name { named_by result ≡ named_laid start long (Some layout) }
    ensures fits { IsShort result }
{
    if layout.kind.marks_by_length() {
        name_long(start, layout, long)
    } else {
        name_slots(start, layout, 0)
    }
}

/// A cell by the layout word that was read.
fn name_shaped(start: u32, long: Option<u64>, word: Option<u64>) -> Name
    ensures name { named_by result ≡ named_shaped start long word }
    ensures fits { IsShort result }
{
    match word {
        Some(word) => name_laid(start, long, LayoutWord::parse(word)),
        None => Name::Unread,
    }
}

/// Whether there may be the shape of a header.
pub(crate) fn is_shape(header: Header) -> bool
    ensures { result ≡ is_shape header }
{
    header.shape < shape::COUNT
}

/// What a snap with this header names.
fn name_headed(snap: &Snap, header: Header) -> Name
    ensures name { named_by result
        ≡ named_headed snap.now.cell snap.now.layout snap.now.length (Some header) }
    ensures fits { IsShort result }
{
    if is_shape(header) {
        name_shaped(snap.cell, snap.length, snap.layout)
    } else {
        Name::NoCell
    }
}

/// What a snap names.
fn name_of(snap: &Snap) -> Name
    ensures name { named_by result ≡ named snap.now }
    ensures fits { IsShort result }
{
    match Header::parse(Word(snap.header)) {
        Some(header) => name_headed(snap, header),
        None => Name::NoCell,
    }
}

/// Whether the slot at an offset was read.
fn was_read(snap: &Snap, offset: u32) -> bool
    ensures { IsTrue result ↔ Contains (read_offsets snap.now) offset }
{
    has_slot(snap.slots.as_slice(), offset)
}

/// Whether a slot stands at an offset.
fn has_slot(slots: &[SnapSlot], offset: u32) -> bool
    ensures { result ≡ list_any (λ slot. slot.offset == offset) slots.now }
{
    slots.iter().any(|slot| slot.offset == offset)
}

/// Whether the slot at an offset is named, and is still to be read.
pub(crate) fn is_to_read(snap: &Snap, offset: u32) -> bool
    ensures { IsTrue result ↔ IsToRead (named snap.now) (read_offsets snap.now) offset }
{
    match name_of(snap) {
        Name::Cell(layout, long) => layout.is_tagged(long, offset) && !was_read(snap, offset),
        Name::Unread => false,
        Name::NoCell => false,
    }
}

/// Whether each tagged slot of a cell was read.
fn are_read(snap: &Snap, layout: LayoutWord, long: u64) -> bool
    requires { IsShort (Name.Cell layout long) }
    ensures { IsTrue result
        ↔ All (λ offset. Contains (read_offsets snap.now) offset) (tagged_offsets layout long) }
{
    for offset in 0..WORDS_MOST {
        if layout.is_tagged(long, offset) && !was_read(snap, offset) {
            return false;
        }
    }
    true
}

/// Whether nothing is left to read.
pub(crate) fn is_read_out(snap: &Snap) -> bool
    ensures { IsTrue result ↔ IsReadOut (named snap.now) (read_offsets snap.now) }
{
    match name_of(snap) {
        Name::Cell(layout, long) => are_read(snap, layout, long),
        Name::Unread => false,
        Name::NoCell => true,
    }
}

/// Whether a word that tells what the snap names is unread.
pub(crate) fn is_unread(snap: &Snap) -> bool
    ensures { IsTrue result ↔ (named snap.now ≡ Named.unread) }
{
    match name_of(snap) {
        Name::Cell(_, _) => false,
        Name::Unread => true,
        Name::NoCell => false,
    }
}
