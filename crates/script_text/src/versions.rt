//! The version of a source's grammar, which its first line with tokens may say.
ghost use Rattle.std.specs.Prelude.{◌≡◌, ℕ, ◌<◌, ◌≤◌, ◌^◌, List, ◌∷◌, IfOk, IfErr, Ok, Err, length, map};
ghost use Rattle.script_text.specs.Versions.{opening_from, version_at, version_in};
ghost use Rattle.script_text.specs.Shown.{opening_by, opening_shown};
ghost use Rattle.script_text.specs.Tokens.{integer_of};

use crate::cursor::Tokens;
use crate::limits::{LINE_BYTES_MOST, VERSION_MOST};
use crate::script::{BadScript, Why};
use crate::tokens::integer_of;

/// Where the commands of a source begin.
#[derive(Clone, Copy)]
pub(crate) struct Opening {
    pub(crate) version: u32,
    /// How many lines stand before them, with the one that says the version.
    pub(crate) skipped: usize,
}

/// What a line says of the version, where the lines before it have no token.
#[derive(Clone, Copy)]
pub(crate) enum Saying {
    /// The line has no token: a later one may say the version.
    Nothing,
    /// The commands begin with this line, and the version is the first.
    Command,
    /// The commands begin after this line, and are of this version.
    Version(u32),
}

/// Where the commands of these lines begin, or the line that says no version.
pub(crate) fn opening_of(lines: &[&[u8]]) -> Result<Opening, BadScript>
    requires { length lines.now < 2 ^ 32 }
    ensures opened { IfOk result (λ opening. opening_from 1 (map (λ line. line.now) lines.now)
        ≡ Ok (opening_shown (map (λ line. line.now) lines.now) opening)) }
    ensures within { IfOk result (λ opening. opening.skipped ≤ length lines.now) }
    ensures refused { IfErr result (λ stop.
        opening_from 1 (map (λ line. line.now) lines.now) ≡ Err stop) }
{
    for (i, line) in lines.iter().enumerate() {
        match said_of(line) {
            Ok(Saying::Nothing) => {}
            Ok(Saying::Command) => return Ok(Opening {
                version: 1,
                skipped: i,
            }),
            Ok(Saying::Version(version)) => return Ok(Opening {
                version,
                skipped: i + 1,
            }),
            Err(why) => return Err(BadScript::BadLine {
                line: i as u32 + 1,
                why,
            }),
        }
    }
    Ok(Opening {
        version: 1,
        skipped: lines.len(),
    })
}

/// What the line says of the version, or why it is refused.
fn said_of(line: &[u8]) -> Result<Saying, Why>
    ensures { (number : ℕ) (rest : List (List ℕ)) →
        opening_from number (line.now ∷ rest) ≡ opening_by number line.now rest result }
{
    // A line that is too long is refused as a command, for its length, whatever its first token is.
    if line.len() > LINE_BYTES_MOST {
        return Ok(Saying::Command);
    }
    let mut tokens = Tokens::of(line);
    let Some(first) = tokens.take_next() else {
        return Ok(Saying::Nothing);
    };
    if first != b"version".as_slice() {
        return Ok(Saying::Command);
    }
    match version_in(tokens) {
        Ok(version) => Ok(Saying::Version(version)),
        Err(why) => Err(why),
    }
}

/// The version that the tokens after the word say.
fn version_in(mut tokens: Tokens<'_>) -> Result<u32, Why>
    ensures { result ≡ version_in tokens.entry }
{
    let Some(token) = tokens.take_next() else {
        return Err(Why::Count);
    };
    if tokens.take_next().is_some() {
        return Err(Why::Count);
    }
    version_at(token)
}

/// The version that a token is.
fn version_at(token: &[u8]) -> Result<u32, Why>
    ensures { result ≡ version_at (integer_of token.now) }
{
    match integer_of(token) {
        Some(integer) if 1 <= integer && integer <= i64::from(VERSION_MOST) => Ok(integer as u32),
        _ => Err(Why::Integer),
    }
}
