//! Weak tables: where their pairs stand, and how many there may be.
ghost use Rattle.std.specs.Prelude.{◌≡◌, ◌+◌, ◌-◌, ◌*◌, ◌<◌, ◌↔◌, IsTrue, slice_get};
ghost use Rattle.std.specs.Prelude.{Some};
ghost use Rattle.heap_model.specs.Images.{image_heap};
ghost use Rattle.heap_model.specs.Kinds.{IsPowerOfTwo, is_free_pair};
ghost use Rattle.image_walk.specs.Spans.{IsSpan};
ghost use Rattle.image_walk.specs.TablePairs.{table_pairs, pair_of};

use crate::slots::is_hole;
use crate::spans::Span;
use heap_model::HeapImage;

/// The words of a pair of a weak table.
#[derive(Clone, Copy)]
pub struct KeyValue {
    pub key: u64,
    pub value: u64,
}

/// Whether a number is a power of two.
pub fn is_power_of_two(n: u32) -> bool
    ensures { IsTrue result ↔ IsPowerOfTwo n }
{
    // It has 32 bits, so no power from 32 on is this number.
    for power in 0..32u32 {
        if n as u64 == 1u64 << power {
            return true;
        }
    }
    false
}

/// The pair at a place of a table.
pub fn pair_at(image: &HeapImage, table: Span, at: u32) -> KeyValue
    requires is { IsSpan (image_heap image.now) table }
    requires there { 2 * at + 1 < table.end - table.from }
    ensures { slice_get (table_pairs (image_heap image.now) table) at ≡ Some (pair_of result) }
{
    let place = table.from as usize + 2 * at as usize;
    KeyValue {
        key: image.words.as_slice()[place],
        value: image.words.as_slice()[place + 1],
    }
}

/// Whether a pair holds nothing.
pub fn is_free(pair: KeyValue) -> bool
    ensures { result ≡ is_free_pair (pair_of pair) }
{
    is_hole(pair.key) && is_hole(pair.value)
}
