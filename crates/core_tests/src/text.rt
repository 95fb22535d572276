//! The text that rows are written in: steps with a name and numbers behind it, and lists of numbers.

use std::alloc::Global;
use std::process::Abort;
use std::test::Fail;

/// One step: its name, and the numbers behind it, which are 0 where there are fewer.
#[derive(Clone, Copy)]
pub(crate) struct Step<'t> {
    pub(crate) name: &'t str,
    pub(crate) first: u32,
    pub(crate) second: u32,
    pub(crate) third: u32,
    /// The second number as a word, or the third where there is one.
    pub(crate) word: u64,
}

/// A number; 0 where there is none.
fn number(word: Option<&str>) -> Result<u64, Fail> {
    match word {
        Some(word) => Ok(word.parse::<u64>()?),
        None => Ok(0),
    }
}

/// A number as an address; one that is too great is the greatest.
fn small(number: u64) -> u32 {
    u32::try_from(number).unwrap_or(u32::MAX)
}

/// The step that a text says.
pub(crate) fn step_of(text: &str) -> Result<Step<'_>, Fail> {
    let mut words = text.split_whitespace();
    let name = words.next().unwrap_or("");
    let first = number(words.next())?;
    let second = number(words.next())?;
    let third = words.next();
    let last = number(third)?;
    Ok(Step {
        name,
        first: small(first),
        second: small(second),
        third: small(last),
        word: if third.is_some() { last } else { second },
    })
}

/// The numbers of a text, and 0s behind them up to a count.
pub(crate) fn padded(alloc: Global, text: &str, count: usize) -> Result<Vec<u64>, Fail> {
    let mut list = Vec::new(alloc);
    for word in text.split_whitespace() {
        list.push(word.parse::<u64>()?)?;
    }
    for _ in list.len()..count {
        list.push(0)?;
    }
    Ok(list)
}

/// The addresses of a text.
pub(crate) fn addresses(alloc: Global, text: &str) -> Result<Vec<u32>, Fail> {
    let mut list = Vec::new(alloc);
    for word in text.split_whitespace() {
        list.push(word.parse::<u32>()?)?;
    }
    Ok(list)
}

/// Each part of what is wanted stands in what came.
pub(crate) fn compare(rt: &impl Abort, row: &str, came: &str, wanted: &str) {
    for part in wanted.split("; ") {
        let is_there = came.split("; ").any(|other| other == part);
        assert!(rt; is_there, "{row}: wanted {part}, came {came}");
    }
}
