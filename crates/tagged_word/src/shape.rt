//! The numbers of shapes: the fixed ones, with their layouts, and where those of field paths begin.
ghost use Rattle.std.specs.Prelude.{◌≡◌, ◌≤◌, ◌<◌, ◌↔◌, IfSome, IsSome, slice_get};
ghost use Rattle.tagged_word.specs.Layouts.{IsLayout, kind_number, layout_bits};
ghost use Rattle.tagged_word.specs.Shapes.{list_shape, weak_shape, store_shape, table_shape};
ghost use Rattle.tagged_word.specs.Shapes.{box_shape, filler_shape, gap_shape};
ghost use Rattle.tagged_word.specs.Shapes.{first_path_shape, shapes_most, fixed_layout_words};

use crate::layout::{Kind, LayoutWord};

/// A list.
pub const LIST: u32 = 1;

/// A weak map.
pub const WEAK: u32 = 2;

/// The slots of a list, or the fields of an object that do not stand in it.
pub const STORE: u32 = 3;

/// The pairs of a weak map.
pub const TABLE: u32 = 4;

/// One integer of 64 bits.
pub const BOX: u32 = 5;

/// One free word.
pub const FILLER: u32 = 6;

/// Two or more free words.
pub const GAP: u32 = 7;

/// The shape of the first field path. Those of the others follow.
pub const PATHS: u32 = 8;

/// How many shapes there may be. Shape 0 is one of them, and is not used.
pub const COUNT: u32 = 8200;

/// The numbers are those of the table in `specs/Shapes.antt`.
pub fn numbers_are_those_of_the_table()
    ensures list { LIST ≡ list_shape }
    ensures weak { WEAK ≡ weak_shape }
    ensures store { STORE ≡ store_shape }
    ensures table { TABLE ≡ table_shape }
    ensures boxed { BOX ≡ box_shape }
    ensures filler { FILLER ≡ filler_shape }
    ensures gap { GAP ≡ gap_shape }
    ensures paths { PATHS ≡ first_path_shape }
    ensures count { COUNT ≡ shapes_most }
{}

/// The layout word of a fixed shape stands at its number, and is the number of its kind.
pub fn fixed_layouts_stand_at_their_shapes()
    ensures list { slice_get fixed_layout_words list_shape ≡ Some (kind_number Kind.List) }
    ensures weak { slice_get fixed_layout_words weak_shape ≡ Some (kind_number Kind.Weak) }
    ensures store { slice_get fixed_layout_words store_shape ≡ Some (kind_number Kind.Store) }
    ensures table { slice_get fixed_layout_words table_shape ≡ Some (kind_number Kind.Table) }
    ensures boxed { slice_get fixed_layout_words box_shape ≡ Some (kind_number Kind.Boxed) }
    ensures filler { slice_get fixed_layout_words filler_shape ≡ Some (kind_number Kind.Filler) }
    ensures gap { slice_get fixed_layout_words gap_shape ≡ Some (kind_number Kind.Gap) }
{}

/// The layout of a fixed shape; none for shape 0 and for those of field paths.
pub fn fixed_layout(shape: u32) -> Option<LayoutWord>
    ensures fixed { IsSome result ↔ ((list_shape ≤ shape) × (shape < first_path_shape)) }
    ensures layout { IfSome result (λ layout. IsLayout layout
        × (slice_get fixed_layout_words shape ≡ Some (layout_bits layout))) }
{
    match shape {
        LIST => Some(LayoutWord::bare(Kind::List)),
        WEAK => Some(LayoutWord::bare(Kind::Weak)),
        STORE => Some(LayoutWord::bare(Kind::Store)),
        TABLE => Some(LayoutWord::bare(Kind::Table)),
        BOX => Some(LayoutWord::bare(Kind::Boxed)),
        FILLER => Some(LayoutWord::bare(Kind::Filler)),
        GAP => Some(LayoutWord::bare(Kind::Gap)),
        _ => None,
    }
}
