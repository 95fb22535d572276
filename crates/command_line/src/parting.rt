//! The words of `soak`, parted into those of its options and the positional ones.
ghost use Rattle.std.specs.Prelude.{◌≡◌, IfOk, map, string_bytes};
ghost use Rattle.command_line.specs.Given.{kind_of};
ghost use Rattle.command_line.specs.Parted.{part_of, part_of_kind, parts_of};

use std::alloc::{AllocError, Global};

/// What the next word is taken for.
#[derive(Clone, Copy)]
pub(crate) enum Expected {
    /// An option, a positional word or `--`.
    AnyWord,
    /// The value of the option before it.
    Value,
    /// A positional word, behind `--`.
    PositionalWord,
}

/// The part that a word belongs to, and what the next one is taken for.
#[derive(Clone, Copy)]
pub(crate) enum Part {
    OfOptions(Expected),
    Positional(Expected),
    /// Only positional words follow.
    Neither,
}

/// The words of the options and the positional ones, each in their order.
#[derive(Drop)]
pub(crate) struct PartedWords<'a> {
    pub(crate) options: Vec<&'a str>,
    pub(crate) positional: Vec<&'a str>,
}

/// Words, parted. The first, which is the command, goes before those of the options, as the parser of
/// options passes over its first word.
pub(crate) fn part_words<'a>(
    alloc: Global,
    words: &'a [String],
) -> Result<PartedWords<'a>, AllocError>
    ensures options { IfOk result (λ parts. map (λ word. word.now) parts.options.items
        ≡ (parts_of Expected.Value (map string_bytes words.entry.now)).options) }
    ensures positional { IfOk result (λ parts. map (λ word. word.now) parts.positional.items
        ≡ (parts_of Expected.Value (map string_bytes words.entry.now)).positional) }
{
    let mut options = Vec::new(alloc);
    let mut positional = Vec::new(alloc);
    let mut expected = Expected::Value;
    for word in words {
        let text = word.as_str();
        expected = match part_of(expected, text) {
            Part::OfOptions(next) => {
                options.push(text)?;
                next
            }
            Part::Positional(next) => {
                positional.push(text)?;
                next
            }
            Part::Neither => Expected::PositionalWord,
        };
    }
    Ok(PartedWords {
        options,
        positional,
    })
}

/// The part of a word, by what is expected.
fn part_of(expected: Expected, word: &str) -> Part
    ensures { result ≡ part_of expected word.now }
{
    match expected {
        Expected::AnyWord => part_of_any(word),
        Expected::Value => Part::OfOptions(Expected::AnyWord),
        Expected::PositionalWord => Part::Positional(Expected::PositionalWord),
    }
}

/// The part of a word, where any is expected. One that begins with a hyphen and is no option goes to the
/// options too, where it is refused.
fn part_of_any(word: &str) -> Part
    ensures { result ≡ part_of_kind (kind_of word.now) }
{
    match word.as_bytes() {
        [b'-', b'-'] => Part::Neither,
        [b'-', b'-', option @ ..] => {
            if option.contains(&b'=') {
                Part::OfOptions(Expected::AnyWord)
            } else {
                Part::OfOptions(Expected::Value)
            }
        }
        [b'-', ..] => Part::OfOptions(Expected::AnyWord),
        _ => Part::Positional(Expected::AnyWord),
    }
}
