//! The cell at an address at which one is known to stand. Where cells may stand is not looked at.
ghost use Rattle.std.specs.Prelude.{◌≡◌, ℕ, ◌+◌, slice_get, Some};
ghost use Rattle.tagged_word.specs.Cells.{has_length, length_by};
ghost use Rattle.cell_layout.specs.Cells.{IsLayoutOf};
ghost use Rattle.heap_model.specs.Types.{Cell, LayoutWord};
ghost use Rattle.write_barrier.specs.Seats.{heap_words};
ghost use Rattle.heap_walk.specs.Standing.{StandsAt};

use cell_layout::Cell;
use tagged_word::{Header, Kind, LayoutWord};
use write_barrier::Main;

/// The cell that stands at an address.
#[inline(always)]
pub fn known_cell(main: &Main, at: u32) -> Cell
    requires { (cell : Cell) × StandsAt main.now.seat.space (heap_words main.now.seat) at cell }
    ensures stands { StandsAt main.now.seat.space (heap_words main.now.seat) at result }
    ensures one { (cell : Cell) → StandsAt main.now.seat.space (heap_words main.now.seat) at cell →
        result ≡ cell }
{
    // There is a word for each address before the marks.
    main.addresses_fit();
    known_cell_by(main, at, main.word(at))
}

/// The cell that stands at an address, whose first word has been read: it is not read again.
#[inline(always)]
pub fn known_cell_by(main: &Main, at: u32, word: u64) -> Cell
    requires stands { (cell : Cell) × StandsAt main.now.seat.space (heap_words main.now.seat) at cell }
    requires read { slice_get (heap_words main.now.seat) at ≡ Some word }
    ensures stands { StandsAt main.now.seat.space (heap_words main.now.seat) at result }
    ensures one { (cell : Cell) → StandsAt main.now.seat.space (heap_words main.now.seat) at cell →
        result ≡ cell }
{
    let header = Header::of_bits(word);
    let layout = known_layout(main, header.shape);
    let length = known_length(main, at, layout.kind);
    Cell {
        at,
        header,
        layout,
        length,
        size: layout.known_size(length),
    }
}

/// The kind of the cell that stands at an address: its size and its length are not read.
#[inline(always)]
pub fn known_kind(main: &Main, at: u32) -> Kind
    requires { (cell : Cell) × StandsAt main.now.seat.space (heap_words main.now.seat) at cell }
    ensures { (cell : Cell) → StandsAt main.now.seat.space (heap_words main.now.seat) at cell →
        result ≡ cell.layout.kind }
{
    // There is a word for each address before the marks.
    main.addresses_fit();
    let header = Header::of_bits(main.word(at));
    known_layout(main, header.shape).kind
}

/// The layout of a shape that has one.
fn known_layout(main: &Main, shape: u32) -> LayoutWord
    requires { (layout : LayoutWord) ×
        IsLayoutOf main.now.seat.space (heap_words main.now.seat) shape layout }
    ensures { (layout : LayoutWord) →
        IsLayoutOf main.now.seat.space (heap_words main.now.seat) shape layout → result ≡ layout }
{
    let at = main.regions().layout_at(shape);
    LayoutWord::of_bits(main.word(at))
}

/// The length of the cell of a kind at an address: its second word where that is one, else 0.
fn known_length(main: &Main, at: u32, kind: Kind) -> u64
    requires { let second = slice_get (heap_words main.now.seat) (at + 1) in
        (length : ℕ) × (length_by (has_length kind) second ≡ Some length) }
    ensures { let second = slice_get (heap_words main.now.seat) (at + 1) in
        length_by (has_length kind) second ≡ Some result }
{
    if !kind.has_length() {
        return 0;
    }
    // There is a word for each address before the marks.
    main.addresses_fit();
    main.slot(at, 1)
}
