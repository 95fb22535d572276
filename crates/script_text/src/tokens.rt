//! What a token may be: a name or an integer.
ghost use Rattle.std.specs.Prelude.{◌≡◌, option_and_then};
ghost use Rattle.std.specs.List.{list_all};
ghost use Rattle.script_text.specs.Tokens.{is_name, is_name_start, is_name_byte, starts_as_name, at_most};
ghost use Rattle.script_text.specs.Tokens.{positive_of, digits_after, integer_of};

use crate::limits::NAME_BYTES_MOST;

/// Whether a token is a name: 1 to 32 letters, digits and `_`, of which the first is no digit, and
/// not `undefined`.
pub(crate) fn is_name(token: &[u8]) -> bool
    ensures { result ≡ is_name token.now }
{
    let reserved = token == b"undefined".as_slice();
    starts_as_name(token) && has_name_bytes(token) && token.len() <= NAME_BYTES_MOST && !reserved
}

/// The integer of 64 bits that a token is: `0`, or digits of which the first is 1 to 9, or `-` and
/// such digits.
pub(crate) fn integer_of(token: &[u8]) -> Option<i64>
    ensures { result ≡ integer_of token.now }
{
    match token {
        [b'-', digits @ ..] => 0i64.checked_sub_unsigned(positive_up_to(1 << 63, digits)?),
        [b'0'] => Some(0),
        _ => i64::try_from(positive_up_to((1 << 63) - 1, token)?).ok(),
    }
}

fn starts_as_name(token: &[u8]) -> bool
    ensures { result ≡ starts_as_name token.now }
{
    match token {
        [first, ..] => is_name_start(*first),
        [] => false,
    }
}

fn has_name_bytes(token: &[u8]) -> bool
    ensures { result ≡ list_all is_name_byte token.now }
{
    token.iter().all(|b| is_name_byte(*b))
}

fn is_name_start(b: u8) -> bool
    ensures { result ≡ is_name_start b }
{
    b.is_ascii_alphabetic() || b == b'_'
}

fn is_name_byte(b: u8) -> bool
    ensures { result ≡ is_name_byte b }
{
    is_name_start(b) || b.is_ascii_digit()
}

/// The number that the digits make, where the first is 1 to 9 and it is at most this.
fn positive_up_to(most: u64, digits: &[u8]) -> Option<u64>
    ensures { result ≡ option_and_then (at_most most) (positive_of digits.now) }
{
    match digits {
        [] | [b'0', ..] => None,
        _ => number_up_to(most, digits),
    }
}

/// The number that the digits make, where it is at most this.
fn number_up_to(most: u64, digits: &[u8]) -> Option<u64>
    ensures { result ≡ option_and_then (at_most most) (digits_after 0 digits.now) }
{
    let mut number = 0u64;
    for digit in digits {
        if !digit.is_ascii_digit() {
            return None;
        }
        number = number
            .checked_mul(10)?
            .checked_add(u64::from(*digit - b'0'))?;
    }
    if number <= most { Some(number) } else { None }
}
