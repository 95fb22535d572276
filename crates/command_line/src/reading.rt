//! Reading words as an invocation.
ghost use Rattle.std.specs.Prelude.{◌≡◌, [], ◌∷◌, Err, Some, None, IfOk, IsTrue, false, drop, map};
ghost use Rattle.std.specs.Prelude.{option_and_then, string_bytes};
ghost use Rattle.command_line.specs.Given.{given_of};
ghost use Rattle.command_line.specs.Invocations.{begins_with_any, commands, invocation_of};
ghost use Rattle.command_line.specs.Invocations.{invocation_by, gen as gen_command, soak as soak_command};

use crate::invocation::{Invocation, WordsStop};
use crate::options::sizes_of;
use crate::parting::part_words;
use crate::plan::{generation_of, soak_of};
use std::alloc::Global;

/// Reads the words after the program's name: a command, its options and positional words. They are
/// refused as `BadWords` only where they ask for nothing. `NoMemory` comes only where the first word is
/// a command, and not `gen`, which needs no memory; other words may then be bad all the same.
pub fn read_words(alloc: Global, words: &[String]) -> Result<Invocation, WordsStop>
    ensures invocation { IfOk result (λ invocation.
        invocation_of (map string_bytes words.now) ≡ Some invocation) }
    ensures refused { result ≡ Err WordsStop.BadWords →
        invocation_of (map string_bytes words.now) ≡ None }
    ensures begins_command { result ≡ Err WordsStop.NoMemory →
        IsTrue (begins_with_any commands (map string_bytes words.now)) }
    ensures gen_needs_none { result ≡ Err WordsStop.NoMemory →
        begins_with_any (gen_command ∷ []) (map string_bytes words.now) ≡ false }
{
    // The first word is judged before anything allocates, so that no other command wants memory.
    let [first, rest @ ..] = words else {
        return Err(WordsStop::BadWords);
    };
    match first.as_str() {
        "run" => Ok(Invocation::Run(sizes_of(alloc, words)?)),
        "check" => Ok(Invocation::Check(sizes_of(alloc, words)?)),
        "soak" => read_soak(alloc, words),
        "gen" => generation_of(rest).ok_or(WordsStop::BadWords),
        _ => Err(WordsStop::BadWords),
    }
}

/// Reads the words of `soak`, of which this is the first. Its options and its positional words may stand
/// in any order, so they are parted, and each part is read for itself.
fn read_soak(alloc: Global, words: &[String]) -> Result<Invocation, WordsStop>
    ensures invocation { IfOk result (λ invocation. option_and_then (invocation_by soak_command)
        (given_of (drop 1 (map string_bytes words.now))) ≡ Some invocation) }
    ensures refused { result ≡ Err WordsStop.BadWords → option_and_then (invocation_by soak_command)
        (given_of (drop 1 (map string_bytes words.now))) ≡ None }
{
    let parts = part_words(alloc, words)?;
    let sizes = sizes_of(alloc, parts.options.as_slice())?;
    soak_of(sizes, parts.positional.as_slice()).ok_or(WordsStop::BadWords)
}
