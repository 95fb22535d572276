//! Kinds of cells: which belong to another cell, which are plain objects, and which are boxes.
ghost use Rattle.std.specs.Prelude.{◌≡◌, ◌↔◌, IsTrue};
ghost use Rattle.heap_model.specs.Wholeness.{IsOwnedKind};
ghost use Rattle.image_walk.specs.Sorts.{is_box_kind};

use tagged_word::Kind;

/// Whether a cell of the kind belongs to one other: a store, a weak table or a box.
pub fn is_owned(kind: Kind) -> bool
    ensures { IsTrue result ↔ IsOwnedKind kind }
{
    match kind {
        Kind::Store => true,
        Kind::Table => true,
        Kind::Boxed => true,
        _ => false,
    }
}

/// Whether a cell of the kind is a plain object.
pub fn is_plain(kind: Kind) -> bool
    ensures { IsTrue result ↔ (kind ≡ Kind.Plain) }
{
    match kind {
        Kind::Plain => true,
        _ => false,
    }
}

/// Whether a cell of the kind is a box.
pub(crate) fn is_box(kind: Kind) -> bool
    ensures { result ≡ is_box_kind kind }
{
    match kind {
        Kind::Boxed => true,
        _ => false,
    }
}
