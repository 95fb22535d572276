//! A script as it was read.
ghost use Rattle.std.specs.Prelude.{◌≡◌, ◌<◌, ◌≤◌, Some, length, map, slice_get};
ghost use Rattle.script_text.specs.Limits.{variable_names_most, field_names_most};
ghost use Rattle.script_text.specs.Grammar.{why_text};
ghost use Rattle.script_text.specs.Sound.{script_text, IsNumbered, IsMatched, IsWellFormed, AreShort};
ghost use Rattle.script_text.specs.Versions.{version_most};
ghost use Rattle.script_text.specs.Whole.{IsPaired};

use heap_command::Command;
use std::alloc::{AllocError, AllocFailed};
use std::marker::Model;

/// Why a line is refused. Where several reasons hold, it is the first in this order.
#[derive(Clone, Copy, Debug, PartialEq, Eq)]
pub enum Why {
    /// It has over 4,096 bytes.
    Long,
    /// Its first word is no command of the version. `version` is none, except in the first line with tokens.
    Command,
    /// It has another number of operands, or says another number of versions than one.
    Count,
    /// An operand has to be a name.
    Name,
    /// An operand has to be an integer of a range; the version is 1 or 2.
    Integer,
    /// An operand has to be a value.
    Value,
    /// Four `repeat` are open already.
    Nesting,
    /// No `repeat` is open.
    End,
    /// The `repeat` has no `end`.
    Open,
}

impl Why {
    /// The reason as a bad script's line writes it.
    pub fn text(self) -> &'static str
        ensures { result.now ≡ why_text self }
    {
        match self {
            Why::Long => "long",
            Why::Command => "command",
            Why::Count => "count",
            Why::Name => "name",
            Why::Integer => "integer",
            Why::Value => "value",
            Why::Nesting => "nesting",
            Why::End => "end",
            Why::Open => "open",
        }
    }
}

/// Why a source is no script.
#[derive(Clone, Copy, Debug, PartialEq, Eq)]
pub enum BadScript {
    /// The first line that is refused, counted from 1. Where there is none, the innermost `repeat`
    /// that is left open.
    BadLine { line: u32, why: Why },
    /// The first line that names more than 1,024 variables or 4,096 fields with the lines before it.
    TooManyNames { line: u32 },
    /// Memory was refused; so is a source of 4 GiB or more.
    NoMemory,
}

impl From<AllocError> for BadScript {
    ghost use Rattle.std.specs.Prelude.{◌≡◌};
    ghost use Rattle.script_text.specs.declared.script.BadScript.TheVariants.{NoMemory};

    ghost from_gives = { λ _ stop. stop ≡ NoMemory };

    fn from(_refused: AllocError) -> Self {
        BadScript::NoMemory
    }
}

impl<T: Drop> From<AllocFailed<T>> for BadScript {
    ghost use Rattle.std.specs.Prelude.{◌≡◌};
    ghost use Rattle.script_text.specs.declared.script.BadScript.TheVariants.{NoMemory};

    ghost from_gives = { λ _ stop. stop ≡ NoMemory };

    fn from(_refused: AllocFailed<T>) -> Self {
        BadScript::NoMemory
    }
}

/// What a line does.
#[derive(Clone, Copy, Debug, PartialEq, Eq)]
pub enum What {
    /// It runs a command.
    Run(Command),
    /// The lines up to its `end` are run so many times. The `end` is the line of this place, counted
    /// from 0.
    Repeat { times: u32, end_at: u32 },
    /// It ends the `repeat` of this place, counted from 0.
    End { repeat_at: u32 },
}

/// A line, with its number in the source, counted from 1.
#[derive(Clone, Copy)]
pub struct Line {
    pub number: u32,
    pub what: What,
}

/// A script over the source that it was read from. It is of a version: the first line of a source with tokens may be
/// `version 1` or `version 2`, and without such a line it is of version 1. The command `proto` is there from version 2
/// on.
#[derive(Drop)]
pub struct Script<'s> {
    version: u32,
    lines: Vec<Line>,
    variables: Vec<&'s [u8]>,
    fields: Vec<&'s [u8]>,
}

impl<'s> Model for Script<'s> {
    ghost use Rattle.std.specs.Prelude.{map};
    ghost use Rattle.script_text.specs.Scripts.{ScriptText};
    ghost use Rattle.script_text.specs.Sound.{script_text, IsWellFormed};

    ghost Value = { ScriptText };

    ghost view = { λ script. script_text script.version script.lines.items
        (map (λ name. name.now) script.variables.items)
        (map (λ name. name.now) script.fields.items) };

    ghost invariant = { λ script. IsWellFormed (script_text script.version script.lines.items
        (map (λ name. name.now) script.variables.items)
        (map (λ name. name.now) script.fields.items)) };
}

impl<'s> Script<'s> {
    /// The version by which the script was read.
    pub fn version(&self) -> u32
        ensures is { result ≡ self.now.version }
        ensures known { (1 ≤ result) × (result ≤ version_most) }
    {
        self.version
    }

    pub fn lines(&self) -> &[Line]
        ensures all { result.now ≡ self.now.lines }
        ensures numbered { IsNumbered self.now }
        ensures matched { IsMatched self.now.lines }
        ensures placed { IsPaired 0 result.now }
    {
        &self.lines
    }

    /// How many variables the script names.
    pub fn variables(&self) -> u32
        ensures count { result ≡ length self.now.variables }
        ensures few { result ≤ variable_names_most }
    {
        self.variables.len() as u32
    }

    /// How many fields the script names.
    pub fn fields(&self) -> u32
        ensures count { result ≡ length self.now.fields }
        ensures few { result ≤ field_names_most }
        ensures short { AreShort self.now.fields }
    {
        self.fields.len() as u32
    }

    /// The name of a variable, by its number.
    pub fn variable(&self, n: u32) -> &'s [u8]
        requires { n < length self.now.variables }
        ensures { slice_get self.now.variables n ≡ Some result.now }
    {
        self.variables[n as usize]
    }

    /// The name of a field, by its number.
    pub fn field(&self, n: u32) -> &'s [u8]
        requires { n < length self.now.fields }
        ensures { slice_get self.now.fields n ≡ Some result.now }
    {
        self.fields[n as usize]
    }

    /// A script of this version, with these lines, variables and fields.
    pub(crate) fn new(
        version: u32,
        lines: Vec<Line>,
        variables: Vec<&'s [u8]>,
        fields: Vec<&'s [u8]>,
    ) -> Self
        requires { IsWellFormed (script_text version lines.items
            (map (λ name. name.now) variables.items) (map (λ name. name.now) fields.items)) }
        ensures { result ≡ script_text version lines.items
            (map (λ name. name.now) variables.entry.items)
            (map (λ name. name.now) fields.entry.items) }
    {
        Script {
            version,
            lines,
            variables,
            fields,
        }
    }
}
