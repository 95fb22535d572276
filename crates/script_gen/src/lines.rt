//! Writing a line: the word of its command, and its operands with what is drawn for them.
ghost use Rattle.std.specs.Prelude.{◌≡◌, ◌++◌, IfOk, decimal};
ghost use Rattle.script_gen.specs.Lines.{drawn_word, drawn_value, drawn_words, state_after, line_text};

use crate::draws::Kept;
use itoa::Buffer;
use std::alloc::AllocError;

/// What stands at the place of an operand.
#[derive(Clone, Copy)]
pub enum Operand {
    /// This number.
    Number(u32),
    /// The variable `v`.
    Seen,
    /// One of the eight objects. Its number is drawn.
    Object,
    /// The list with this number.
    NumberedList(u32),
    /// One of the two weak maps. Its number is drawn.
    WeakMap,
    /// One of the four fields. It is drawn.
    Field,
    /// A value. Its kind is drawn, and then the value.
    Value,
}

/// Writes a line.
pub(crate) fn write_line(
    out: &mut Vec<u8>,
    kept: &mut Kept,
    command: &str,
    operands: &[Operand],
) -> Result<(), AllocError>
    ensures written { IfOk result (λ _. out.new.items ≡ out.old.items
        ++ line_text (record { command = command.now; operands = drawn_words operands.now kept.old.state })) }
    ensures kept { IfOk result (λ _.
        kept.new ≡ record kept.old { state = state_after operands.now kept.old.state }) }
{
    out.extend_from_slice(command.as_bytes())?;
    for operand in operands {
        out.push(b' ')?;
        write_operand(out, kept, *operand)?;
    }
    out.push(b'\n')?;
    Ok(())
}

fn write_operand(out: &mut Vec<u8>, kept: &mut Kept, operand: Operand) -> Result<(), AllocError>
    ensures written { IfOk result (λ _. out.new.items ≡ out.old.items ++ (drawn_word operand kept.old.state).word) }
    ensures kept { IfOk result (λ _.
        kept.new ≡ record kept.old { state = (drawn_word operand kept.old.state).state }) }
{
    match operand {
        Operand::Number(n) => write_number(out, "", n),
        Operand::Seen => out.extend_from_slice(b"v"),
        Operand::Object => write_number(out, "o", kept.draw(8)),
        Operand::NumberedList(n) => write_number(out, "l", n),
        Operand::WeakMap => write_number(out, "w", kept.draw(2)),
        Operand::Field => {
            out.push(b'a' + kept.draw(4) as u8)?;
            Ok(())
        }
        Operand::Value => {
            let kind = kept.draw(4);
            write_value(out, kept, kind)
        }
    }
}

/// Writes a value of a kind that was drawn.
fn write_value(out: &mut Vec<u8>, kept: &mut Kept, kind: u32) -> Result<(), AllocError>
    ensures written { IfOk result (λ _. out.new.items ≡ out.old.items ++ (drawn_value kind kept.old.state).word) }
    ensures kept { IfOk result (λ _.
        kept.new ≡ record kept.old { state = (drawn_value kind kept.old.state).state }) }
{
    match kind {
        0 => {
            let small = i64::from(kept.draw(2001)) - 1000;
            out.extend_from_slice(Buffer::new().format(small).as_bytes())
        }
        1 => {
            let wide = 1_000_000_000_000 + u64::from(kept.draw(1000));
            out.extend_from_slice(Buffer::new().format(wide).as_bytes())
        }
        2 => write_number(out, "o", kept.draw(8)),
        _ => out.extend_from_slice(b"undefined"),
    }
}

/// Writes what something is called, and its number.
fn write_number(out: &mut Vec<u8>, noun: &str, number: u32) -> Result<(), AllocError>
    ensures { IfOk result (λ _. out.new.items ≡ out.old.items ++ (noun.now ++ decimal number)) }
{
    out.extend_from_slice(noun.as_bytes())?;
    out.extend_from_slice(Buffer::new().format(number).as_bytes())
}
