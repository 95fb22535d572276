//! What `gen` and `soak` are asked for: a seed, and how many forms.
ghost use Rattle.std.specs.Prelude.{◌≡◌, ◌==◌, option_and_then, option_map, map, string_bytes};
ghost use Rattle.std.specs.Prelude.{if◌then◌else◌, None};
ghost use Rattle.command_line.specs.Given.{given_of};
ghost use Rattle.command_line.specs.Invocations.{invocation_by, gen as gen_command, plan_of};
ghost use Rattle.command_line.specs.Plans.{asked_of_two, asked_of_three};

use crate::invocation::Invocation;
use crate::number::{number_in, seed_in};
use page_space::Sizes;

/// The most forms of a generated script.
const FORMS_MOST: u32 = 30_000;

/// What the words after `gen` ask for: two numbers, with a `--` before, between or behind them or none.
/// It has no options, so no parser of them is needed, and no memory.
pub(crate) fn generation_of(words: &[String]) -> Option<Invocation>
    ensures { result ≡ option_and_then (invocation_by gen_command)
        (given_of (map string_bytes words.now)) }
{
    match words {
        [seed, forms] => asked_of_two(seed.as_str(), forms.as_str()),
        [first, second, third] => asked_of_three(first.as_str(), second.as_str(), third.as_str()),
        _ => None,
    }
}

/// What three words ask for, of which one is to be `--`.
fn asked_of_three(first: &str, second: &str, third: &str) -> Option<Invocation>
    ensures { result ≡ asked_of_three first.now second.now third.now }
{
    if first == "--" {
        asked_of_two(second, third)
    } else if second == "--" {
        asked_of_two(first, third)
    } else if third == "--" {
        asked_of_two(first, second)
    } else {
        None
    }
}

/// What two numbers ask for.
fn asked_of_two(seed: &str, forms: &str) -> Option<Invocation>
    ensures { result ≡ asked_of_two seed.now forms.now }
{
    Some(Invocation::Gen {
        seed: seed_in(seed)?,
        forms: number_in(0, FORMS_MOST, forms)?,
    })
}

/// What `soak` asks for with these sizes and positional words, which are to be two numbers.
pub(crate) fn soak_of(sizes: Sizes, positional: &[&str]) -> Option<Invocation>
    ensures { result ≡ option_map (λ plan. Invocation.Soak sizes plan.seed plan.forms)
        (plan_of (map (λ word. word.now) positional.now)) }
{
    match positional {
        [seed, forms] => Some(Invocation::Soak {
            sizes,
            seed: seed_in(seed)?,
            forms: number_in(0, FORMS_MOST, forms)?,
        }),
        _ => None,
    }
}
