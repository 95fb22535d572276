//! The statements of a source, each with the number of its line.
ghost use Rattle.std.specs.Prelude.{◌≡◌, ℕ, ◌<◌, ◌+◌, ◌^◌, List, [], ◌∷◌, IfOk, IfErr, IfSome, OnOk, None, Ok, Err};
ghost use Rattle.std.specs.Prelude.{length, map};
ghost use Rattle.script_text.specs.Gathered.{gathered};
ghost use Rattle.script_text.specs.Grammar.{closed, nest, open_after, reading, script_or_stop, stated_from};
ghost use Rattle.script_text.specs.Lines.{lines_of};
ghost use Rattle.script_text.specs.Shown.{stated_shown, IsBad, IsReadAs};
ghost use Rattle.script_text.specs.Versions.{opening_from};

use crate::blocks::open_after;
use crate::limits::{COMMAND_BYTES_LEAST, OPEN_MOST};
use crate::lines::lines;
use crate::script::{BadScript, Why};
use crate::stack::Stack;
use crate::statement::{Statement, statement_of_line};
use crate::table::Keyword;
use crate::versions::{Opening, opening_of};
use std::alloc::Global;

/// A statement and the number of its line.
#[derive(Drop)]
pub(crate) struct NumberedStatement<'s> {
    pub(crate) number: u32,
    pub(crate) statement: Statement<'s>,
}

/// The statements of a source, and the version by which they were read.
#[derive(Drop)]
pub(crate) struct VersionedStatements<'s> {
    pub(crate) version: u32,
    pub(crate) stated: Vec<NumberedStatement<'s>>,
}

/// The statements of a source, or the line that is refused. The list of its lines is let go once they were read.
pub(crate) fn statements_of<'s>(
    alloc: Global,
    source: &'s [u8],
) -> Result<VersionedStatements<'s>, BadScript>
    requires { length source.now < 2 ^ 32 }
    ensures stated { IfOk result (λ all.
        IsReadAs (opening_from 1 (lines_of source.now)) all.version (map stated_shown all.stated.items)) }
    ensures read { IfOk result (λ all.
        reading source.now ≡ script_or_stop all.version (Ok (map stated_shown all.stated.items))) }
    ensures refused { IfErr result (λ stop. IsBad (reading source.now) stop) }
{
    let lines = lines(alloc, source)?;
    let opening = opening_of(&lines)?;
    let stated = statements_of_lines(alloc, opening, &lines[opening.skipped..])?;
    Ok(VersionedStatements {
        version: opening.version,
        stated,
    })
}

/// The statements of the lines where the commands begin, or the line that is refused.
fn statements_of_lines<'s>(
    alloc: Global,
    opening: Opening,
    lines: &[&'s [u8]],
) -> Result<Vec<NumberedStatement<'s>>, BadScript>
    requires { opening.skipped + length lines.now < 2 ^ 32 }
    ensures stated { IfOk result (λ stated.
        stated_from opening.version (opening.skipped + 1) [] (map (λ line. line.now) lines.now)
        ≡ Ok (map stated_shown stated.items)) }
    ensures refused { IfErr result (λ stop. IsBad
        (stated_from opening.version (opening.skipped + 1) [] (map (λ line. line.now) lines.now)) stop) }
{
    // Room is reserved once: a list that doubled would take twice the memory, and half as much again while it moves.
    let count = lines
        .iter()
        .filter(|line| line.len() >= COMMAND_BYTES_LEAST)
        .count();
    let mut statements = Statements {
        stated: Vec::with_capacity(alloc, count)?,
        opened: Stack::new(alloc),
    };
    for (i, line) in lines.iter().enumerate() {
        let number = (opening.skipped + i) as u32 + 1;
        statements.read_line(opening.version, number, line)?;
    }
    statements.close()
}

/// The statements of the lines that were read, and the lines whose `repeat` is open.
#[derive(Drop)]
struct Statements<'s> {
    stated: Vec<NumberedStatement<'s>>,
    opened: Stack,
}

impl<'s> Statements<'s> {
    /// Reads the line with this number behind the others, by this version.
    fn read_line(&mut self, version: u32, number: u32, line: &'s [u8]) -> Result<(), BadScript>
        ensures said { OnOk result ((rest : List (List ℕ)) →
            gathered (map stated_shown self.new.stated.items)
            (stated_from version (number + 1) self.new.opened rest)
            ≡ gathered (map stated_shown self.old.stated.items)
            (stated_from version number self.old.opened (line.now ∷ rest))) }
        ensures refused { IfErr result (λ stop. (rest : List (List ℕ)) → IsBad
            (gathered (map stated_shown self.old.stated.items)
            (stated_from version number self.old.opened (line.now ∷ rest))) stop) }
    {
        let statement = match statement_of_line(version, line) {
            Ok(Some(statement)) => statement,
            Ok(None) => return Ok(()),
            Err(why) => return Err(BadScript::BadLine { line: number, why }),
        };
        if let Some(why) = why_misplaced(&self.opened, statement.keyword) {
            return Err(BadScript::BadLine { line: number, why });
        }
        open_after(&mut self.opened, number, statement.keyword)?;
        self.stated.push(NumberedStatement { number, statement })?;
        Ok(())
    }

    /// The statements, where no `repeat` is open.
    fn close(self) -> Result<Vec<NumberedStatement<'s>>, BadScript>
        ensures stated { IfOk result (λ stated.
            closed self.entry.opened ≡ Ok [] × (stated.items ≡ self.entry.stated.items)) }
        ensures refused { IfErr result (λ stop. IsBad (closed self.entry.opened) stop) }
    {
        match self.opened.top() {
            Some(line) => Err(BadScript::BadLine {
                line,
                why: Why::Open,
            }),
            None => Ok(self.stated),
        }
    }
}

/// Why the command may not stand where these `repeat`s are open, if so.
fn why_misplaced(opened: &Stack, keyword: Keyword) -> Option<Why>
    ensures placed { result ≡ None
        → (number : ℕ) → nest number opened.now keyword ≡ Ok (open_after number opened.now keyword) }
    ensures misplaced { IfSome result (λ why.
        (number : ℕ) → nest number opened.now keyword ≡ Err why) }
{
    match keyword {
        Keyword::Repeat if opened.len() >= OPEN_MOST => Some(Why::Nesting),
        Keyword::End if opened.len() == 0 => Some(Why::End),
        _ => None,
    }
}
