//! A line as a statement: a keyword with operands, whose names are still as they are written.
ghost use Rattle.std.specs.Prelude.{◌≡◌, ◌≢◌, ◌≤◌, None, IfOk, IfErr, IfSome, Ok, Err, length, map, option_map};
ghost use Rattle.std.specs.Prelude.{slice_get, take};
ghost use Rattle.script_text.specs.Statements.{statement_of_line, with_operands, written_all, written_at};
ghost use Rattle.script_text.specs.Statements.{integer_or_bound};
ghost use Rattle.script_text.specs.Statements.{literal_up_to};
ghost use Rattle.script_text.specs.Table.{places_of};
ghost use Rattle.script_text.specs.Tokens.{integer_of};
ghost use Rattle.script_text.specs.Shown.{shown, statement_shown};

use crate::cursor::Tokens;
use crate::limits::LINE_BYTES_MOST;
use crate::script::Why;
use crate::table::{Keyword, OperandKind, PLACES_MOST, keyword_of, places};
use crate::tokens::{integer_of, is_name};

/// An operand as it is written.
#[derive(Clone, Copy)]
pub(crate) enum RawOperand<'s> {
    /// The name of a variable.
    Variable(&'s [u8]),
    /// The name of a field.
    Field(&'s [u8]),
    /// An integer of the range of its place.
    Literal(u32),
    /// A value that is an integer.
    Integer(i64),
    /// The value `undefined`.
    Undefined,
    /// A value that is what the variable of this name is bound to.
    Bound(&'s [u8]),
}

/// A command with its operands.
#[derive(Drop)]
pub(crate) struct Statement<'s> {
    pub(crate) keyword: Keyword,
    /// As many operands as the command has stand first; the others say nothing.
    operands: [RawOperand<'s>; PLACES_MOST],
}

impl<'s> Statement<'s> {
    /// The operand of the command at this place, counted from 0.
    pub(crate) fn operand(&self, at: usize) -> Option<RawOperand<'s>>
        ensures { option_map shown result ≡ slice_get (statement_shown self.now).operands at }
    {
        let operands = &self.operands[..places(self.keyword).len()];
        operands.get(at).copied()
    }
}

/// The statement of a line by a version; nothing where the line has no token.
pub(crate) fn statement_of_line<'s>(
    version: u32,
    line: &'s [u8],
) -> Result<Option<Statement<'s>>, Why>
    ensures statement { IfOk result (λ statement.
        statement_of_line version line.now ≡ Ok (option_map statement_shown statement)) }
    ensures refused { IfErr result (λ why. statement_of_line version line.now ≡ Err why) }
{
    // Where several reasons hold, the first in this order is told.
    if line.len() > LINE_BYTES_MOST {
        return Err(Why::Long);
    }
    let mut tokens = Tokens::of(line);
    let Some(first) = tokens.take_next() else {
        return Ok(None);
    };
    let Some(keyword) = keyword_of(version, first) else {
        return Err(Why::Command);
    };
    Ok(Some(with_operands(keyword, tokens)?))
}

/// The command with these tokens as its operands.
fn with_operands<'s>(keyword: Keyword, tokens: Tokens<'s>) -> Result<Statement<'s>, Why>
    ensures statement { IfOk result (λ statement.
        with_operands keyword tokens.entry ≡ Ok (Some (statement_shown statement))) }
    ensures refused { IfErr result (λ why. with_operands keyword tokens.entry ≡ Err why) }
{
    // All tokens are counted before the first is judged: their number is the earlier reason.
    match as_many(places(keyword).len(), tokens) {
        Some(taken) => written_all(keyword, &taken.tokens),
        None => Err(Why::Count),
    }
}

/// As many tokens as a command may have operands; those that were taken stand first.
#[derive(Drop)]
struct Taken<'s> {
    tokens: [&'s [u8]; PLACES_MOST],
}

/// The tokens, where there are so many.
fn as_many<'s>(count: usize, mut tokens: Tokens<'s>) -> Option<Taken<'s>>
    requires { count ≤ PLACES_MOST }
    ensures taken { IfSome result (λ taken.
        map (λ token. token.now) (take count taken.tokens) ≡ tokens.entry) }
    ensures counted { result ≡ None → length tokens.entry ≢ count }
{
    let mut taken = [b"".as_slice(); PLACES_MOST];
    for i in 0..count {
        taken[i] = tokens.take_next()?;
    }
    match tokens.take_next() {
        Some(_) => None,
        None => Some(Taken { tokens: taken }),
    }
}

/// What the tokens say at the places of the command, or why the first that may not stand there may
/// not.
fn written_all<'s>(keyword: Keyword, tokens: &[&'s [u8]; PLACES_MOST]) -> Result<Statement<'s>, Why>
    ensures statement { IfOk result (λ statement.
        written_all (places_of keyword) (map (λ token. token.now) tokens.now)
        ≡ Ok (statement_shown statement).operands) }
    ensures keyword { IfOk result (λ statement. statement.keyword ≡ keyword) }
    ensures refused { IfErr result (λ why.
        written_all (places_of keyword) (map (λ token. token.now) tokens.now) ≡ Err why) }
{
    let mut operands = [RawOperand::Undefined; PLACES_MOST];
    for (i, place) in places(keyword).iter().enumerate() {
        operands[i] = written_at(*place, tokens[i])?;
    }
    Ok(Statement { keyword, operands })
}

/// What the token says at this place, or why it may not stand there.
fn written_at<'s>(place: OperandKind, token: &'s [u8]) -> Result<RawOperand<'s>, Why>
    ensures written { IfOk result (λ written. written_at place token.now ≡ Ok (shown written)) }
    ensures refused { IfErr result (λ why. written_at place token.now ≡ Err why) }
{
    match place {
        OperandKind::Variable if is_name(token) => Ok(RawOperand::Variable(token)),
        OperandKind::Field if is_name(token) => Ok(RawOperand::Field(token)),
        OperandKind::Variable => Err(Why::Name),
        OperandKind::Field => Err(Why::Name),
        OperandKind::Value if token == b"undefined".as_slice() => Ok(RawOperand::Undefined),
        OperandKind::Value => integer_or_bound(token),
        OperandKind::Literal { most } => literal_up_to(most, token),
    }
}

/// The integer that the token is, or else what the variable of this name is bound to.
fn integer_or_bound<'s>(token: &'s [u8]) -> Result<RawOperand<'s>, Why>
    ensures written { IfOk result (λ written.
        integer_or_bound (integer_of token.now) token.now ≡ Ok (shown written)) }
    ensures refused { IfErr result (λ why.
        integer_or_bound (integer_of token.now) token.now ≡ Err why) }
{
    match integer_of(token) {
        Some(integer) => Ok(RawOperand::Integer(integer)),
        None if is_name(token) => Ok(RawOperand::Bound(token)),
        None => Err(Why::Value),
    }
}

/// The literal up to this one that the token is.
fn literal_up_to<'s>(most: u32, token: &'s [u8]) -> Result<RawOperand<'s>, Why>
    ensures written { IfOk result (λ written.
        literal_up_to most (integer_of token.now) ≡ Ok (shown written)) }
    ensures refused { IfErr result (λ why. literal_up_to most (integer_of token.now) ≡ Err why) }
{
    match integer_of(token) {
        Some(integer) if 0 <= integer && integer <= i64::from(most) => {
            Ok(RawOperand::Literal(integer as u32))
        }
        _ => Err(Why::Integer),
    }
}
