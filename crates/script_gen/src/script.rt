//! The whole script.
ghost use Rattle.std.specs.Prelude.{◌≡◌, ◌≤◌, ◌++◌, IfOk, flat_map};
ghost use Rattle.script_gen.specs.Lines.{line_text};
ghost use Rattle.script_gen.specs.Generated.{lines_before, kept_before, generated};

use crate::draws::{Kept, LISTS};
use crate::forms::write_form;
use std::alloc::{AllocError, Global};
use tagged_word::NoMemory;

/// The most forms of a script.
pub const FORMS_MOST: u32 = 30_000;

/// How many forms go by before objects, lists and maps are made anew.
const FORMS_BETWEEN: u32 = 256;

/// The lines that make objects, lists and maps anew.
const OPENING: &[u8] = b"new o0 1\nnew o1 3\nnew o2 1\nnew o3 3\nnew o4 1\nnew o5 3\nnew o6 1\n\
new o7 3\nlist l0\nlist l1\nlist l2\nlist l3\nweak w0\nweak w1\nlet v 0\n";

/// The script of a seed, with so many forms. The memory for it is taken once, before the first draw.
pub fn generate(alloc: Global, seed: u64, n: u32) -> Result<Vec<u8>, NoMemory>
    requires { n ≤ FORMS_MOST }
    ensures { IfOk result (λ bytes. bytes.items ≡ generated seed n) }
{
    let mut out = Vec::with_capacity(alloc, bytes_most(n))?;
    out.extend_from_slice(b"repeat 8\n")?;
    let mut kept = Kept {
        state: seed,
        lengths: [0; LISTS],
    };
    for number in 0..n {
        write_opening(&mut out, &mut kept, number)?;
        write_form(&mut out, &mut kept)?;
    }
    out.extend_from_slice(b"end\n")?;
    Ok(out)
}

/// Writes the opening lines where they stand before the form with this number. All lists are empty
/// then.
fn write_opening(out: &mut Vec<u8>, kept: &mut Kept, number: u32) -> Result<(), AllocError>
    ensures written { IfOk result (λ _.
        out.new.items ≡ out.old.items ++ flat_map line_text (lines_before number)) }
    ensures kept { IfOk result (λ _. kept.new ≡ kept_before number kept.old) }
{
    if number % FORMS_BETWEEN == 0 {
        out.extend_from_slice(OPENING)?;
        kept.lengths = [0; LISTS];
    }
    Ok(())
}

/// No fewer bytes than the script of so many forms has.
fn bytes_most(n: u32) -> usize
    requires { n ≤ FORMS_MOST }
{
    const FORM_BYTES_MOST: usize = 25;
    let openings = n.div_ceil(FORMS_BETWEEN) as usize;
    n as usize * FORM_BYTES_MOST + openings * OPENING.len() + 13
}
