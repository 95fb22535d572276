//! The forms: each writes one line, which the first draw chooses.
ghost use Rattle.std.specs.Prelude.{◌<◌, ℕ, IfOk, slice_index};
ghost use Rattle.script_gen.specs.Forms.{WritesForm, form_of, plain_form, list_form, push_form};
ghost use Rattle.script_gen.specs.Forms.{put_form, at_form, shift_form, trunc_form};

use crate::draws::{Kept, LISTS};
use crate::lines::Operand::{Field, Number, NumberedList, Object, Seen, Value, WeakMap};
use crate::lines::write_line;
use std::alloc::AllocError;

/// Writes the next form.
pub(crate) fn write_form(out: &mut Vec<u8>, kept: &mut Kept) -> Result<(), AllocError>
    requires short { (list : ℕ) → slice_index kept.old.lengths list < 256 }
    ensures { IfOk result (λ _.
        WritesForm out.old.items out.new.items kept.new (form_of kept.old)) }
{
    let first = kept.draw(64);
    match first {
        27..=48 => {
            let list = kept.draw(4);
            write_list_form(out, kept, first, list)
        }
        _ => write_plain_form(out, kept, first),
    }
}

/// Writes the form of a first draw that is of lists, for this list.
fn write_list_form(
    out: &mut Vec<u8>,
    kept: &mut Kept,
    first: u32,
    list: u32,
) -> Result<(), AllocError>
    requires number { list < LISTS }
    requires short { slice_index kept.old.lengths list < 256 }
    ensures { IfOk result (λ _. WritesForm out.old.items out.new.items kept.new
        (list_form first list (slice_index kept.old.lengths list) kept.old)) }
{
    let is_empty = kept.lengths[list as usize] == 0;
    match first {
        0..=34 => write_push(out, kept, list),
        35..=38 if is_empty => write_push(out, kept, list),
        35..=38 => write_put(out, kept, list),
        39..=42 if is_empty => write_line(out, kept, "print", &[Seen]),
        39..=42 => write_at(out, kept, list),
        43..=45 => write_shift(out, kept, list),
        _ => write_trunc(out, kept, list),
    }
}

/// Writes the form of a first draw that is of no list.
fn write_plain_form(out: &mut Vec<u8>, kept: &mut Kept, first: u32) -> Result<(), AllocError>
    ensures { IfOk result (λ _.
        WritesForm out.old.items out.new.items kept.new (plain_form first kept.old)) }
{
    match first {
        0..=2 => write_line(out, kept, "new", &[Object, Number(1)]),
        3..=5 => write_line(out, kept, "new", &[Object, Number(3)]),
        6..=17 => write_line(out, kept, "set", &[Object, Field, Value]),
        18..=22 => write_line(out, kept, "get", &[Seen, Object, Field]),
        23..=26 => write_line(out, kept, "del", &[Object, Field]),
        27..=53 => write_line(out, kept, "wput", &[WeakMap, Object, Value]),
        54..=57 => write_line(out, kept, "wget", &[Seen, WeakMap, Object]),
        58 => write_line(out, kept, "scavenge", &[]),
        59 => write_line(out, kept, "mark", &[]),
        60 => write_line(out, kept, "finish", &[]),
        61..=62 => write_line(out, kept, "print", &[Seen]),
        _ => write_line(out, kept, "census", &[]),
    }
}

/// Writes a `push` to this list.
fn write_push(out: &mut Vec<u8>, kept: &mut Kept, list: u32) -> Result<(), AllocError>
    requires number { list < LISTS }
    requires short { slice_index kept.old.lengths list < 256 }
    ensures { IfOk result (λ _. WritesForm out.old.items out.new.items kept.new
        (push_form list (slice_index kept.old.lengths list) kept.old)) }
{
    kept.lengths[list as usize] += 1;
    write_line(out, kept, "push", &[NumberedList(list), Value])
}

/// Writes a `put` into this list, at a place that is drawn.
fn write_put(out: &mut Vec<u8>, kept: &mut Kept, list: u32) -> Result<(), AllocError>
    requires number { list < LISTS }
    requires some { 0 < slice_index kept.old.lengths list }
    ensures { IfOk result (λ _. WritesForm out.old.items out.new.items kept.new
        (put_form list (slice_index kept.old.lengths list) kept.old)) }
{
    let i = kept.draw(kept.lengths[list as usize]);
    write_line(out, kept, "put", &[NumberedList(list), Number(i), Value])
}

/// Writes an `at` of this list, at a place that is drawn.
fn write_at(out: &mut Vec<u8>, kept: &mut Kept, list: u32) -> Result<(), AllocError>
    requires number { list < LISTS }
    requires some { 0 < slice_index kept.old.lengths list }
    ensures { IfOk result (λ _. WritesForm out.old.items out.new.items kept.new
        (at_form list (slice_index kept.old.lengths list) kept.old)) }
{
    let i = kept.draw(kept.lengths[list as usize]);
    write_line(out, kept, "at", &[Seen, NumberedList(list), Number(i)])
}

/// Writes a `shift` of this list: as many elements as are drawn leave it.
fn write_shift(out: &mut Vec<u8>, kept: &mut Kept, list: u32) -> Result<(), AllocError>
    requires number { list < LISTS }
    requires short { slice_index kept.old.lengths list < 256 }
    ensures { IfOk result (λ _. WritesForm out.old.items out.new.items kept.new
        (shift_form list (slice_index kept.old.lengths list) kept.old)) }
{
    let length = kept.lengths[list as usize];
    let n = kept.draw(length + 1);
    kept.lengths[list as usize] = length - n;
    write_line(out, kept, "shift", &[NumberedList(list), Number(n)])
}

/// Writes a `trunc` of this list: as many elements as are drawn stay in it.
fn write_trunc(out: &mut Vec<u8>, kept: &mut Kept, list: u32) -> Result<(), AllocError>
    requires number { list < LISTS }
    requires short { slice_index kept.old.lengths list < 256 }
    ensures { IfOk result (λ _. WritesForm out.old.items out.new.items kept.new
        (trunc_form list (slice_index kept.old.lengths list) kept.old)) }
{
    let n = kept.draw(kept.lengths[list as usize] + 1);
    kept.lengths[list as usize] = n;
    write_line(out, kept, "trunc", &[NumberedList(list), Number(n)])
}
