//! Cells: how many words one of a layout has, and which of them are slots.
ghost use Rattle.std.specs.Prelude.{◌≡◌, ℕ, ◌≤◌, ◌+◌, ◌*◌, ◌^◌, ◌<◌, ◌↔◌, ◌∷◌, IsTrue, Some};
ghost use Rattle.std.specs.List.{Contains, range_with_len};
ghost use Rattle.tagged_word.specs.Layouts.{is_raw};
ghost use Rattle.tagged_word.specs.Cells.{is_object_kind, is_free_kind, marks_by_length};
ghost use Rattle.tagged_word.specs.Cells.{has_length, words_of, words_least, cell_size};
ghost use Rattle.tagged_word.specs.Cells.{cell_words_most, store_slot, proto_slot, store_head, plain_head};
ghost use Rattle.tagged_word.specs.Cells.{length_offset};
ghost use Rattle.tagged_word.specs.Cells.{in_object_offsets, tagged_offsets, scavenge_offsets};

use crate::layout::{Kind, LayoutWord};

/// The most words of a cell, which are those of a page.
pub const WORDS_MOST: u32 = 2048;

/// The words of a plain cell before its in-object slots.
pub const PLAIN_HEAD: u32 = 3;

/// The words of a store or table before its slots.
pub const STORE_HEAD: u32 = 2;

/// The offset of the slot for a store or table, in the cells that have one beside them.
pub const STORE_SLOT: u32 = 1;

/// The offset of the slot for the prototype of a plain cell.
pub const PROTO_SLOT: u32 = 2;

/// The offset of the length, in the cells that have one: the capacity of a store or table, and the
/// size of a gap.
pub const LENGTH: u32 = 1;

/// The numbers are those of the table in `specs/Cells.antt`.
pub fn numbers_are_those_of_cells()
    ensures most { WORDS_MOST ≡ cell_words_most }
    ensures plain { PLAIN_HEAD ≡ plain_head }
    ensures head { STORE_HEAD ≡ store_head }
    ensures slot { STORE_SLOT ≡ store_slot }
    ensures proto { PROTO_SLOT ≡ proto_slot }
    ensures length { LENGTH ≡ length_offset }
{}

impl Kind {
    /// Whether a cell of this kind is an object.
    pub fn is_object(self) -> bool
        ensures { result ≡ is_object_kind self }
    {
        match self {
            Kind::Plain | Kind::List | Kind::Weak => true,
            _ => false,
        }
    }

    /// Whether the words of a cell of this kind are free.
    pub fn is_free(self) -> bool
        ensures { result ≡ is_free_kind self }
    {
        match self {
            Kind::Filler | Kind::Gap => true,
            _ => false,
        }
    }

    /// Whether marking reads the length of a cell of this kind.
    pub fn marks_by_length(self) -> bool
        ensures { result ≡ marks_by_length self }
    {
        match self {
            Kind::Store => true,
            _ => false,
        }
    }

    /// Whether the second word of a cell of this kind is its length.
    pub fn has_length(self) -> bool
        ensures { result ≡ has_length self }
    {
        match self {
            Kind::Store | Kind::Table | Kind::Gap => true,
            _ => false,
        }
    }

    /// How many words a cell of this kind has, where 64 bits hold it.
    #[inline(always)]
    fn words(self, cap: u32, length: u64) -> u64
        requires { words_of self cap length < 2 ^ 64 }
        ensures { result ≡ words_of self cap length }
    {
        match self {
            Kind::Plain => PLAIN_HEAD as u64 + cap as u64,
            Kind::List => 3,
            Kind::Weak => 3,
            Kind::Store => STORE_HEAD as u64 + length,
            Kind::Table => STORE_HEAD as u64 + 2 * length,
            Kind::Boxed => 2,
            Kind::Filler => 1,
            Kind::Gap => length,
        }
    }

    /// The fewest words of a cell of this kind.
    fn words_least(self) -> u64
        ensures { result ≡ words_least self }
    {
        match self {
            Kind::Gap => 2,
            _ => 1,
        }
    }
}

impl LayoutWord {
    /// The size of a cell in words, by its length; none where a cell of it would pass a page, and
    /// for a gap of fewer than 2 words. A kind that has no length leaves it aside.
    pub fn size(self, length: u64) -> Option<u32>
        ensures { result ≡ cell_size self length }
    {
        // A length of more words than a cell may have will do for any greater one.
        let words = self.kind.words(self.cap, length.min(WORDS_MOST as u64 + 1));
        if words >= self.kind.words_least() && words <= WORDS_MOST as u64 {
            Some(words as u32)
        } else {
            None
        }
    }

    /// The size of a cell in words, where there is known to be one. Nothing is asked of its limits.
    #[inline(always)]
    pub fn known_size(self, length: u64) -> u32
        requires { (size : ℕ) × (cell_size self length ≡ Some size) }
        ensures { cell_size self length ≡ Some result }
    {
        self.kind.words(self.cap, length) as u32
    }

    /// Whether marking visits the slot at an offset.
    pub fn is_tagged(self, length: u64, offset: u32) -> bool
        ensures { IsTrue result ↔ Contains (tagged_offsets self length) offset }
    {
        match self.kind {
            Kind::Plain => self.is_plain_tagged(offset),
            Kind::List => offset == STORE_SLOT,
            Kind::Weak => offset == STORE_SLOT,
            Kind::Store => is_slot_of(length, offset),
            // A value that a pair holds lives only while its key does: marking asks for each pair.
            Kind::Table => false,
            _ => false,
        }
    }

    /// Whether a scavenge visits the slot at an offset.
    pub fn is_scavenge_slot(self, length: u64, offset: u32) -> bool
        ensures { IsTrue result ↔ Contains (scavenge_offsets self length) offset }
    {
        match self.kind {
            Kind::Table => is_of_pairs(length, offset),
            _ => self.is_tagged(length, offset),
        }
    }

    /// Whether marking visits the slot at an offset of a plain cell.
    fn is_plain_tagged(self, offset: u32) -> bool
        ensures { IsTrue result ↔ Contains (store_slot ∷ proto_slot ∷ in_object_offsets self) offset }
    {
        if offset == STORE_SLOT {
            return true;
        }
        if offset == PROTO_SLOT {
            return true;
        }
        self.is_in_object_tagged(offset)
    }

    /// Whether an in-object slot that is used and not raw stands at an offset.
    fn is_in_object_tagged(self, offset: u32) -> bool
        ensures { IsTrue result ↔ Contains (in_object_offsets self) offset }
    {
        if offset < PLAIN_HEAD {
            return false;
        }
        let slot = offset - PLAIN_HEAD;
        if slot >= self.used {
            return false;
        }
        !self.is_raw(slot)
    }

    /// Whether an in-object slot is raw.
    #[tactic(auto, using(crate::proofs::Masks::no_bit_above))]
    fn is_raw(self, slot: u32) -> bool
        ensures { result ≡ is_raw self slot }
    {
        slot < 32 && (self.raw >> slot) % 2 == 1
    }
}

/// Whether one of so many slots of a store stands at an offset.
fn is_slot_of(slots: u64, offset: u32) -> bool
    ensures { IsTrue result ↔ Contains (range_with_len store_head slots) offset }
{
    if offset < STORE_HEAD {
        return false;
    }
    ((offset - STORE_HEAD) as u64) < slots
}

/// Whether a half of one of so many pairs of a table stands at an offset.
fn is_of_pairs(pairs: u64, offset: u32) -> bool
    ensures { IsTrue result ↔ Contains (range_with_len store_head (2 * pairs)) offset }
{
    if offset < STORE_HEAD {
        return false;
    }
    ((offset - STORE_HEAD) as u64) / 2 < pairs
}
