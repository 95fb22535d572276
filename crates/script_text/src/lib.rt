//! The text of a heap script: cut into lines, judged by the grammar, and numbered.
//!
//! Model: a `ScriptText` of `specs/Scripts.antt` is the list of lines with their commands, and the
//! names of the variables and of the fields by number. `reading` of `specs/Grammar.antt` says what a
//! source is read as. The names of a `Script` are slices of its source; no name is copied.
//! Invariant: `IsWellFormed` of `specs/Sound.antt`. The lines name only what the script has, and each
//! `repeat` and its `end` name one another.
#![tactic(auto)]

mod blocks;
mod commands;
mod cursor;
mod limits;
mod lines;
mod names;
mod numbering;
mod parsing;
mod script;
mod stack;
mod statement;
mod statements;
mod table;
mod tokens;
mod versions;

pub use commands::Argument;
pub use parsing::parse;
pub use script::{BadScript, Line, Script, What, Why};
pub use table::{Keyword, OperandKind};
