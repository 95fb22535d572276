//! The table of the commands: the word of each, and what its operands are.
ghost use Rattle.std.specs.Prelude.{◌≡◌, ◌≤◌, ◌&&◌, nat_le, bytes_eq, length};
ghost use Rattle.script_text.specs.Table.{keyword_text, keywords, since, keywords_of, keyword_among, places_of};

use crate::limits::TURNS_MOST;
use heap_command::CAP_MOST;

/// The first word of a line.
#[derive(Clone, Copy)]
pub enum Keyword {
    New,
    List,
    Weak,
    Let,
    Drop,
    Add,
    Set,
    Get,
    Del,
    Proto,
    Push,
    Put,
    At,
    Shift,
    Trunc,
    WPut,
    WGet,
    WDel,
    Print,
    Same,
    Alike,
    Shape,
    Repeat,
    End,
    Scavenge,
    Mark,
    Finish,
    Gc,
    Census,
}

/// What an operand has to be.
#[derive(Clone, Copy)]
pub enum OperandKind {
    /// The name of a variable.
    Variable,
    /// The name of a field.
    Field,
    /// An integer, `undefined`, or the name of a variable.
    Value,
    /// An integer from 0 to this one.
    Literal { most: u32 },
}

/// The most operands of a command.
pub(crate) const PLACES_MOST: usize = 3;

/// The command of a version with this word.
pub(crate) fn keyword_of(version: u32, token: &[u8]) -> Option<Keyword>
    ensures { result ≡ keyword_among (keywords_of version) token.now }
{
    for keyword in keywords() {
        if is_written(version, *keyword, token) {
            return Some(*keyword);
        }
    }
    None
}

/// Whether the version has the command, and the token is its word.
fn is_written(version: u32, keyword: Keyword, token: &[u8]) -> bool
    ensures { result ≡ (nat_le (since keyword) version && bytes_eq token.now (keyword_text keyword)) }
{
    let known = since(keyword) <= version;
    known && token == word(keyword)
}

/// What the operands of a command are, in order.
pub(crate) fn places(keyword: Keyword) -> &'static [OperandKind]
    ensures all { result.now ≡ places_of keyword }
    ensures few { length result.now ≤ PLACES_MOST }
{
    match keyword {
        Keyword::New => &[
            OperandKind::Variable,
            OperandKind::Literal { most: CAP_MOST },
        ],
        Keyword::List | Keyword::Weak | Keyword::Drop | Keyword::Shape => &[OperandKind::Variable],
        Keyword::Let
        | Keyword::Add
        | Keyword::Proto
        | Keyword::Push
        | Keyword::Shift
        | Keyword::Trunc
        | Keyword::WDel => &[OperandKind::Variable, OperandKind::Value],
        Keyword::Set => &[
            OperandKind::Variable,
            OperandKind::Field,
            OperandKind::Value,
        ],
        Keyword::Get => &[
            OperandKind::Variable,
            OperandKind::Variable,
            OperandKind::Field,
        ],
        Keyword::Del => &[OperandKind::Variable, OperandKind::Field],
        Keyword::Put | Keyword::WPut => &[
            OperandKind::Variable,
            OperandKind::Value,
            OperandKind::Value,
        ],
        Keyword::At | Keyword::WGet => &[
            OperandKind::Variable,
            OperandKind::Variable,
            OperandKind::Value,
        ],
        Keyword::Print => &[OperandKind::Value],
        Keyword::Same => &[OperandKind::Value, OperandKind::Value],
        Keyword::Alike => &[OperandKind::Variable, OperandKind::Variable],
        Keyword::Repeat => &[OperandKind::Literal { most: TURNS_MOST }],
        _ => &[],
    }
}

/// All commands.
fn keywords() -> &'static [Keyword]
    ensures { result.now ≡ keywords }
{
    &[
        Keyword::New,
        Keyword::List,
        Keyword::Weak,
        Keyword::Let,
        Keyword::Drop,
        Keyword::Add,
        Keyword::Set,
        Keyword::Get,
        Keyword::Del,
        Keyword::Proto,
        Keyword::Push,
        Keyword::Put,
        Keyword::At,
        Keyword::Shift,
        Keyword::Trunc,
        Keyword::WPut,
        Keyword::WGet,
        Keyword::WDel,
        Keyword::Print,
        Keyword::Same,
        Keyword::Alike,
        Keyword::Shape,
        Keyword::Repeat,
        Keyword::End,
        Keyword::Scavenge,
        Keyword::Mark,
        Keyword::Finish,
        Keyword::Gc,
        Keyword::Census,
    ]
}

/// The first version that has the command.
fn since(keyword: Keyword) -> u32
    ensures { result ≡ since keyword }
{
    match keyword {
        Keyword::Proto => 2,
        _ => 1,
    }
}

/// The word of a command.
fn word(keyword: Keyword) -> &'static [u8]
    ensures { result.now ≡ keyword_text keyword }
{
    match keyword {
        Keyword::New => b"new",
        Keyword::List => b"list",
        Keyword::Weak => b"weak",
        Keyword::Let => b"let",
        Keyword::Drop => b"drop",
        Keyword::Add => b"add",
        Keyword::Set => b"set",
        Keyword::Get => b"get",
        Keyword::Del => b"del",
        Keyword::Proto => b"proto",
        Keyword::Push => b"push",
        Keyword::Put => b"put",
        Keyword::At => b"at",
        Keyword::Shift => b"shift",
        Keyword::Trunc => b"trunc",
        Keyword::WPut => b"wput",
        Keyword::WGet => b"wget",
        Keyword::WDel => b"wdel",
        Keyword::Print => b"print",
        Keyword::Same => b"same",
        Keyword::Alike => b"alike",
        Keyword::Shape => b"shape",
        Keyword::Repeat => b"repeat",
        Keyword::End => b"end",
        Keyword::Scavenge => b"scavenge",
        Keyword::Mark => b"mark",
        Keyword::Finish => b"finish",
        Keyword::Gc => b"gc",
        Keyword::Census => b"census",
    }
}
