//! Which `end` belongs to which `repeat`.
ghost use Rattle.std.specs.Prelude.{◌≡◌, ◌<◌, OnOk, length};
ghost use Rattle.std.specs.Vec.{vec_len};
ghost use Rattle.script_text.specs.Blocks.{ended, with_end};
ghost use Rattle.script_text.specs.Grammar.{open_after};

use crate::script::{Line, What};
use crate::stack::Stack;
use crate::table::Keyword;
use std::alloc::AllocError;

/// What a line does, if it is a `repeat` that ends at this place.
fn ended(what: What, end_at: u32) -> What
    ensures { result ≡ ended end_at what }
{
    match what {
        What::Repeat { times, end_at: _ } => What::Repeat { times, end_at },
        other => other,
    }
}

/// Tells the `repeat` at the second place that it ends at the first.
pub(crate) fn end_repeat(lines: &mut Vec<Line>, end_at: u32, repeat_at: u32)
    requires { repeat_at < vec_len lines.old }
    ensures { lines.new.items ≡ with_end end_at repeat_at lines.old.items }
{
    let line = lines[repeat_at as usize];
    lines[repeat_at as usize] = Line {
        number: line.number,
        what: ended(line.what, end_at),
    };
}

/// Opens or closes a `repeat`, where the command at this place is one or its `end`.
pub(crate) fn open_after(opened: &mut Stack, at: u32, keyword: Keyword) -> Result<(), AllocError>
    ensures { OnOk result (opened.new ≡ open_after at opened.old keyword) }
{
    match keyword {
        Keyword::Repeat => opened.push(at)?,
        Keyword::End => {
            opened.pop();
        }
        _ => {}
    }
    Ok(())
}
