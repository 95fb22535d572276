//! The statements of a script as lines: names get numbers in the order in which they first appear, and
//! each `repeat` and its `end` the place of the other.
ghost use Rattle.std.specs.Prelude.{◌≡◌, ℕ, ◌<◌, ◌≤◌, ◌+◌, ◌^◌, List, [], ◌∷◌, ◌++◌, None, false, IfOk, IfErr, OnOk};
ghost use Rattle.std.specs.Prelude.{fold, length, map, slice_get, take};
ghost use Rattle.script_text.specs.Limits.{variable_names_most, field_names_most};
ghost use Rattle.script_text.specs.Names.{with_name, names_at, variable_in, field_in, variables_of, fields_of};
ghost use Rattle.script_text.specs.Scripts.{NumberedStatement as StatedText, line, argument_of, argument_at, what_in};
ghost use Rattle.script_text.specs.Grammar.{innermost_of, open_after, past_limit, script_of};
ghost use Rattle.script_text.specs.Blocks.{AreBelow, closed_lines};
ghost use Rattle.script_text.specs.Fitting.{AreStated, IsStated};
ghost use Rattle.script_text.specs.Shown.{shown, statement_shown, stated_shown, IsPast, are_too_many};
ghost use Rattle.script_text.specs.Sound.{script_text};
ghost use Rattle.script_text.specs.Table.{places_of};

use crate::blocks::{end_repeat, open_after};
use crate::commands::{Argument, what_of};
use crate::limits::{FIELD_NAMES_MOST, VARIABLE_NAMES_MOST};
use crate::names::Names;
use crate::script::{BadScript, Line, What};
use crate::stack::Stack;
use crate::statement::{RawOperand, Statement};
use crate::statements::NumberedStatement;
use crate::table::{Keyword, PLACES_MOST, places};
use heap_command::Operand;
use std::alloc::{AllocError, Global};

/// The lines of a script, and the names by which they have numbers.
#[derive(Drop)]
pub(crate) struct Numbered<'s> {
    pub(crate) lines: Vec<Line>,
    pub(crate) names: Numbering<'s>,
    /// The places of the `repeat`s that are open.
    opened: Stack,
}

/// The place where a `repeat` ends, until its `end` is read.
const UNKNOWN_END: u32 = 0;

/// The statements as lines, or the first line with too many names.
pub(crate) fn with_numbers<'s>(
    alloc: Global,
    stated: &[NumberedStatement<'s>],
) -> Result<Numbered<'s>, BadScript>
    requires few { length stated.now < 2 ^ 32 }
    requires stated { AreStated 0 (map stated_shown stated.now) }
    ensures script { IfOk result (λ all. (version : ℕ) →
        script_of version (map stated_shown stated.now)
        ≡ script_text version all.lines.items all.names.variables all.names.fields) }
    ensures few_variables { IfOk result (λ all. length all.names.variables ≤ variable_names_most) }
    ensures few_fields { IfOk result (λ all. length all.names.fields ≤ field_names_most) }
    ensures within { IfOk result (λ all. past_limit [] [] (map stated_shown stated.now) ≡ None) }
    ensures refused { IfErr result (λ stop.
        IsPast (past_limit [] [] (map stated_shown stated.now)) stop) }
{
    let mut all = Numbered::start(alloc, stated.len())?;
    for (i, one) in stated.iter().enumerate() {
        all.add(i as u32, one)?;
    }
    Ok(all)
}

impl<'s> Numbered<'s> {
    /// No line, with room for so many.
    fn start(alloc: Global, count: usize) -> Result<Self, AllocError>
        ensures lines { IfOk result (λ all. all.lines.items ≡ []) }
        ensures variables { IfOk result (λ all. all.names.variables ≡ []) }
        ensures fields { IfOk result (λ all. all.names.fields ≡ []) }
        ensures opened { IfOk result (λ all. all.opened ≡ []) }
    {
        Ok(Numbered {
            lines: Vec::with_capacity(alloc, count)?,
            names: Numbering::new(alloc),
            opened: Stack::new(alloc),
        })
    }

    /// Adds the line of a statement, which stands at this place.
    fn add(&mut self, at: u32, stated: &NumberedStatement<'s>) -> Result<(), BadScript>
        requires few_variables { length self.old.names.variables ≤ variable_names_most }
        requires few_fields { length self.old.names.fields ≤ field_names_most }
        requires fits { IsStated (statement_shown stated.now.statement) }
        requires below { AreBelow (length self.old.lines.items) self.old.opened }
        ensures variables { OnOk result (self.new.names.variables
            ≡ fold with_name self.old.names.variables (variables_of (statement_shown stated.now.statement))) }
        ensures fields { OnOk result (self.new.names.fields
            ≡ fold with_name self.old.names.fields (fields_of (statement_shown stated.now.statement))) }
        ensures few { OnOk result (are_too_many self.new.names.variables self.new.names.fields ≡ false) }
        ensures line { OnOk result (self.new.lines.items
            ≡ closed_lines stated.now.statement.keyword at self.old.opened self.old.lines.items
            ++ (line stated.now.number (what_in self.new.names.variables self.new.names.fields
            0 (innermost_of self.old.opened) (statement_shown stated.now.statement)) ∷ [])) }
        ensures opened { OnOk result (self.new.opened
            ≡ open_after at self.old.opened stated.now.statement.keyword) }
        ensures refused { IfErr result (λ stop. (more : List StatedText) → IsPast (past_limit
            self.old.names.variables self.old.names.fields (stated_shown stated.now ∷ more)) stop) }
    {
        let repeat_at = self.innermost();
        let what = self.names.what(repeat_at, &stated.statement)?;
        if self.names.are_too_many() {
            return Err(BadScript::TooManyNames {
                line: stated.number,
            });
        }
        self.close_at(at, stated.statement.keyword);
        self.lines.push(Line {
            number: stated.number,
            what,
        })?;
        open_after(&mut self.opened, at, stated.statement.keyword)?;
        Ok(())
    }

    /// The place of the innermost `repeat` that is open, to which an `end` belongs.
    fn innermost(&self) -> u32
        ensures { result ≡ innermost_of self.now.opened }
    {
        self.opened.top().unwrap_or(0)
    }

    /// Where the command at this place is an `end`, tells its `repeat` that it ends here.
    fn close_at(&mut self, at: u32, keyword: Keyword)
        requires { AreBelow (length self.old.lines.items) self.old.opened }
        ensures lines { self.new.lines.items ≡ closed_lines keyword at self.old.opened self.old.lines.items }
        ensures names { self.new.names ≡ self.old.names }
        ensures opened { self.new.opened ≡ self.old.opened }
    {
        match (keyword, self.opened.top()) {
            (Keyword::End, Some(repeat_at)) => end_repeat(&mut self.lines, at, repeat_at),
            _ => {}
        }
    }
}

/// The names of the variables and of the fields, each by number.
#[derive(Drop)]
pub(crate) struct Numbering<'s> {
    pub(crate) variables: Names<'s>,
    pub(crate) fields: Names<'s>,
}

impl<'s> Numbering<'s> {
    fn new(alloc: Global) -> Self
        ensures variables { result.variables ≡ [] }
        ensures fields { result.fields ≡ [] }
    {
        Numbering {
            variables: Names::new(alloc),
            fields: Names::new(alloc),
        }
    }

    /// Whether there are more names than a script may have.
    fn are_too_many(&self) -> bool
        ensures { result ≡ are_too_many self.now.variables self.now.fields }
    {
        self.variables.len() > VARIABLE_NAMES_MOST || self.fields.len() > FIELD_NAMES_MOST
    }

    /// What the statement is, where its names that have no number get one. An `end` ends the `repeat` at this place.
    fn what(&mut self, repeat_at: u32, statement: &Statement<'s>) -> Result<What, AllocError>
        requires few_variables { length self.old.variables ≤ variable_names_most }
        requires few_fields { length self.old.fields ≤ field_names_most }
        requires fits { IsStated (statement_shown statement.now) }
        ensures variables { OnOk result (self.new.variables
            ≡ fold with_name self.old.variables (variables_of (statement_shown statement.now))) }
        ensures fields { OnOk result (self.new.fields
            ≡ fold with_name self.old.fields (fields_of (statement_shown statement.now))) }
        ensures what { IfOk result (λ what.
            what ≡ what_in self.new.variables self.new.fields 0 repeat_at (statement_shown statement.now)) }
    {
        let given = self.arguments(statement)?;
        let count = places(statement.keyword).len();
        Ok(what_of(UNKNOWN_END, repeat_at, statement.keyword, &given[..count]))
    }

    /// The arguments of the statement, where its names that have no number get one. As many as the command has operands
    /// stand first; the others say nothing.
    fn arguments(
        &mut self,
        statement: &Statement<'s>,
    ) -> Result<[Argument; PLACES_MOST], AllocError>
        requires few_variables { length self.old.variables ≤ variable_names_most }
        requires few_fields { length self.old.fields ≤ field_names_most }
        requires fits { IsStated (statement_shown statement.now) }
        ensures variables { OnOk result (self.new.variables
            ≡ fold with_name self.old.variables (variables_of (statement_shown statement.now))) }
        ensures fields { OnOk result (self.new.fields
            ≡ fold with_name self.old.fields (fields_of (statement_shown statement.now))) }
        ensures arguments { IfOk result (λ given. take (length (places_of statement.now.keyword)) given
            ≡ map (argument_of self.new.variables self.new.fields) (statement_shown statement.now).operands) }
    {
        // From left to right: so a name's number tells where it first appears.
        let a = self.argument(statement, 0)?;
        let b = self.argument(statement, 1)?;
        let c = self.argument(statement, 2)?;
        Ok([a, b, c])
    }

    /// The argument that the operand at this place is, where its name gets a number.
    fn argument(&mut self, statement: &Statement<'s>, at: usize) -> Result<Argument, AllocError>
        requires few_variables { length self.old.variables < 2 ^ 31 }
        requires few_fields { length self.old.fields < 2 ^ 31 }
        ensures variables { OnOk result (self.new.variables ≡ fold with_name self.old.variables
            (names_at variable_in (slice_get (statement_shown statement.now).operands at))) }
        ensures fields { OnOk result (self.new.fields ≡ fold with_name self.old.fields
            (names_at field_in (slice_get (statement_shown statement.now).operands at))) }
        ensures argument { IfOk result (λ argument. argument ≡ argument_at
            (map (argument_of self.new.variables self.new.fields) (statement_shown statement.now).operands)
            at) }
        ensures one_variable { length self.new.variables ≤ length self.old.variables + 1 }
        ensures one_field { length self.new.fields ≤ length self.old.fields + 1 }
    {
        match statement.operand(at) {
            Some(written) => self.enter(written),
            None => Ok(Argument::Value(Operand::Undefined)),
        }
    }

    /// The argument that the operand is, where its name gets a number.
    fn enter(&mut self, written: RawOperand<'s>) -> Result<Argument, AllocError>
        requires few_variables { length self.old.variables < 2 ^ 31 }
        requires few_fields { length self.old.fields < 2 ^ 31 }
        ensures variables { OnOk result (self.new.variables
            ≡ fold with_name self.old.variables (variable_in (shown written.entry))) }
        ensures fields { OnOk result (self.new.fields
            ≡ fold with_name self.old.fields (field_in (shown written.entry))) }
        ensures argument { IfOk result (λ argument.
            argument ≡ argument_of self.new.variables self.new.fields (shown written.entry)) }
        ensures one_variable { length self.new.variables ≤ length self.old.variables + 1 }
        ensures one_field { length self.new.fields ≤ length self.old.fields + 1 }
    {
        Ok(match written {
            RawOperand::Variable(name) => Argument::Variable(self.variables.enter(name)?),
            RawOperand::Field(name) => Argument::Field(self.fields.enter(name)?),
            RawOperand::Literal(n) => Argument::Literal(n),
            RawOperand::Integer(v) => Argument::Value(Operand::Int(v)),
            RawOperand::Undefined => Argument::Value(Operand::Undefined),
            RawOperand::Bound(name) => Argument::Value(Operand::Var(self.variables.enter(name)?)),
        })
    }
}
