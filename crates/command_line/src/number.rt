//! Decimal numbers, as the words write them.
ghost use Rattle.std.specs.Prelude.{◌≡◌, ◌-◌, ◌^◌, option_map};
ghost use Rattle.std.specs.List.{list_all};
ghost use Rattle.std.specs.Char.{is_ascii_digit};
ghost use Rattle.command_line.specs.Numbers.{number_in, number_or_default};

/// What an option's number is where it is not given, and the least and the most that it may be.
#[derive(Clone, Copy)]
pub(crate) struct Limits {
    pub(crate) default: u32,
    pub(crate) least: u32,
    pub(crate) most: u32,
}

impl Limits {
    /// The number of an option's text, if it is one within the limits; without a text, the default.
    pub(crate) fn number_or_default(self, text: Option<&str>) -> Option<u32>
        ensures { result ≡ number_or_default self (option_map (λ text. text.now) text.entry) }
    {
        match text {
            None => Some(self.default),
            Some(text) => number_in(self.least, self.most, text),
        }
    }
}

/// The number that the text writes: one digit or more and nothing else, from the least to the most.
pub(crate) fn number_in(least: u32, most: u32, text: &str) -> Option<u32>
    ensures { result ≡ number_in least most text.now }
{
    // `parse` takes a plus too.
    if !has_only_digits(text) {
        return None;
    }
    let Ok(number) = text.parse::<u32>() else {
        return None;
    };
    if least <= number && number <= most {
        Some(number)
    } else {
        None
    }
}

/// The number of 64 bits that the text writes, as `number_in` has it.
pub(crate) fn seed_in(text: &str) -> Option<u64>
    ensures { result ≡ number_in 0 (2 ^ 64 - 1) text.now }
{
    if !has_only_digits(text) {
        return None;
    }
    let Ok(number) = text.parse::<u64>() else {
        return None;
    };
    Some(number)
}

fn has_only_digits(text: &str) -> bool
    ensures { result ≡ list_all is_ascii_digit text.now }
{
    text.bytes().all(|b| b.is_ascii_digit())
}
