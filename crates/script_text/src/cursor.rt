//! A cursor over the tokens of a line.
//!
//! Model: the list of the tokens that are still to come.
ghost use Rattle.std.specs.Prelude.{◌≡◌, ◌≤◌, not, length, option_map, slice_get, drop};
ghost use Rattle.std.specs.List.{position, position_or_len};
ghost use Rattle.script_text.specs.Lines.{is_blank, tokens_of};
ghost use Rattle.script_text.specs.Pieces.{ends_token};

use std::marker::Model;

/// What of a line has not been read.
#[derive(Drop)]
pub(crate) struct Tokens<'s> {
    rest: &'s [u8],
}

impl<'s> Model for Tokens<'s> {
    ghost use Rattle.std.specs.Prelude.{ℕ, List};
    ghost use Rattle.script_text.specs.Lines.{tokens_of};

    ghost Value = { List (List ℕ) };

    ghost view = { λ tokens. tokens_of tokens.rest.now };
}

impl<'s> Tokens<'s> {
    /// All tokens of a line: the longest rows of bytes without blanks before its comment.
    pub(crate) fn of(line: &'s [u8]) -> Self
        ensures { result ≡ tokens_of line.now }
    {
        Tokens { rest: line }
    }

    /// Takes the next token, if there is one.
    pub(crate) fn take_next(&mut self) -> Option<&'s [u8]>
        ensures taken { option_map (λ token. token.now) result ≡ slice_get self.old 0 }
        ensures rest { self.new ≡ drop 1 self.old }
    {
        let text = &self.rest[blanks(self.rest)..];
        let end = token_len(text);
        self.rest = &text[end..];
        if end == 0 { None } else { Some(&text[..end]) }
    }
}

/// How many blanks a text begins with.
fn blanks(text: &[u8]) -> usize
    ensures counted { result ≡ position_or_len (λ b. not (is_blank b)) text.now }
    ensures within { result ≤ length text.now }
{
    first_plain(text).unwrap_or(text.len())
}

/// How many bytes of a text stand before its first blank or comment.
fn token_len(text: &[u8]) -> usize
    ensures counted { result ≡ position_or_len ends_token text.now }
    ensures within { result ≤ length text.now }
{
    token_end(text).unwrap_or(text.len())
}

/// Where the first byte that is no blank stands, if there is one.
fn first_plain(text: &[u8]) -> Option<usize>
    ensures { result ≡ position (λ b. not (is_blank b)) text.now }
{
    text.iter().position(|b| !is_blank(*b))
}

/// Where the first blank or comment stands, if there is one.
fn token_end(text: &[u8]) -> Option<usize>
    ensures { result ≡ position ends_token text.now }
{
    text.iter().position(|b| ends_token(*b))
}

fn ends_token(b: u8) -> bool
    ensures { result ≡ ends_token b }
{
    is_blank(b) || b == b'#'
}

fn is_blank(b: u8) -> bool
    ensures { result ≡ is_blank b }
{
    b == b' ' || b == b'\t' || b == b'\r'
}
