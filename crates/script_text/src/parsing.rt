//! Reading a source as a script.
ghost use Rattle.std.specs.Prelude.{◌≡◌, ◌≢◌, IfOk, IfErr, Ok, Err};
ghost use Rattle.script_text.specs.Grammar.{reading};

use crate::numbering::with_numbers;
use crate::script::{BadScript, Script};
use crate::statements::statements_of;
use std::alloc::Global;

/// Reads a source as a script. A source of 4 GiB or more is refused as `NoMemory`.
pub fn parse<'s>(alloc: Global, source: &'s [u8]) -> Result<Script<'s>, BadScript>
    ensures script { IfOk result (λ script. reading source.now ≡ Ok script) }
    ensures refused { IfErr result (λ stop.
        stop ≢ BadScript.NoMemory → reading source.now ≡ Err stop) }
{
    if source.len() > u32::MAX as usize {
        return Err(BadScript::NoMemory);
    }
    let all = statements_of(alloc, source)?;
    let numbered = with_numbers(alloc, &all.stated)?;
    Ok(Script::new(
        all.version,
        numbered.lines,
        numbered.names.variables.into_names(),
        numbered.names.fields.into_names(),
    ))
}
