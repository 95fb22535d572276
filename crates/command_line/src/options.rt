//! The options of `run`, `check` and `soak`.
ghost use Rattle.std.specs.Prelude.{◌≡◌, false, Err, Some, None, IfOk, drop, map};
ghost use Rattle.std.specs.Prelude.{option_and_then};
ghost use Rattle.clap.specs.Words.{app_of, first_value, found_of, rows_of, rule_of};
ghost use Rattle.clap.specs.Simple.{with_rule};
ghost use Rattle.command_line.specs.Given.{given_of};
ghost use Rattle.command_line.specs.Sizes.{sizes_alone, sizes_by, sizes_from};
ghost use Rattle.command_line.specs.Parser.{option_rule, parsed_rows, parser};

use crate::invocation::WordsStop;
use crate::number::Limits;
use clap::{Arg, ArgAction, ArgMatches, Command};
use page_space::{HELPERS_MOST, PAGES_MOST, Sizes, YOUNG_LEAST, YOUNG_MOST};
use std::alloc::{AllocError, Global};
use std::convert::AsStr;

/// Pages of the old generation.
const PAGES: Limits = Limits {
    default: 64,
    least: 1,
    most: PAGES_MOST,
};

/// Words of the young generation.
const YOUNG: Limits = Limits {
    default: 8192,
    least: YOUNG_LEAST,
    most: YOUNG_MOST,
};

/// Threads that help to collect.
const HELPERS: Limits = Limits {
    default: 2,
    least: 0,
    most: HELPERS_MOST,
};

/// The sizes that the words after the first give; `BadWords` where they give none.
pub(crate) fn sizes_of<S: AsStr>(alloc: Global, words: &[S]) -> Result<Sizes, WordsStop>
    ensures sizes { IfOk result (λ sizes. option_and_then sizes_alone
        (given_of (drop 1 (map S.text words.now))) ≡ Some sizes) }
    ensures refused { result ≡ Err WordsStop.BadWords → option_and_then sizes_alone
        (given_of (drop 1 (map S.text words.now))) ≡ None }
{
    let matches = matches_of(alloc, words)?;
    match sizes_in(&matches) {
        Some(sizes) => Ok(sizes),
        None => Err(WordsStop::BadWords),
    }
}

/// The sizes that the matches give.
fn sizes_in(matches: &ArgMatches<'_>) -> Option<Sizes>
    ensures { result ≡ sizes_by (first_value (found_of matches.now)) }
{
    sizes_from(
        PAGES.number_or_default(matches.get_str("pages")),
        YOUNG.number_or_default(matches.get_str("young")),
        HELPERS.number_or_default(matches.get_str("helpers")),
    )
}

/// The sizes, where each number is there.
fn sizes_from(pages: Option<u32>, young: Option<u32>, helpers: Option<u32>) -> Option<Sizes>
    ensures { result ≡ sizes_from pages young helpers }
{
    Some(Sizes {
        pages: pages?,
        young: young?,
        helpers: helpers?,
    })
}

/// The texts that the words after the first give the options. The parser takes the first word for a
/// program's name and passes over it.
fn matches_of<'a, S: AsStr>(alloc: Global, words: &'a [S]) -> Result<ArgMatches<'a>, WordsStop>
    ensures rows { IfOk result (λ matches. parsed_rows (map S.text words.entry.now)
        ≡ Some (rows_of (found_of matches))) }
    ensures refused { result ≡ Err WordsStop.BadWords →
        parsed_rows (map S.text words.entry.now) ≡ None }
{
    let parser = parser(alloc)?;
    Ok(parser.try_get_matches_from(words)?)
}

/// The parser of the options. It has no help, as `--help` is refused too.
fn parser<'a>(alloc: Global) -> Result<Command<'a>, AllocError>
    ensures { IfOk result (λ command. app_of command ≡ parser) }
{
    let plain = Command::new(alloc, "heaprun").disable_help_flag(true);
    let pages = with_option(alloc, plain, "pages")?;
    let young = with_option(alloc, pages, "young")?;
    with_option(alloc, young, "helpers")
}

/// A parser with one option more.
fn with_option<'a>(
    alloc: Global,
    parser: Command<'a>,
    name: &'a str,
) -> Result<Command<'a>, AllocError>
    ensures { IfOk result (λ more.
        app_of more ≡ with_rule (app_of parser.entry) (option_rule name.entry.now)) }
{
    parser.arg(option(alloc, name))
}

/// An option with one value.
fn option<'a>(alloc: Global, name: &'a str) -> Arg<'a>
    ensures rule { rule_of result ≡ option_rule name.entry.now }
    ensures local { result.global ≡ false }
{
    Arg::new(alloc, name).long(name).action(ArgAction::Set)
}
