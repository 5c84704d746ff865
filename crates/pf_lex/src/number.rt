//! Words read as numbers.
ghost use Rattle.std.specs.Prelude.{◌≡◌, ◌<◌, ◌≤◌, ◌==◌, if◌then◌else◌, pos, neg_ℤ, length, take};
ghost use Rattle.std.specs.Char.{is_ascii_digit};
ghost use Rattle.std.specs.List.{list_all, prefix_len};
ghost use Rattle.std.specs.Str.Parse.{starts_with_minus, without_leading_sign};
ghost use Rattle.pf_lex.specs.Number.{ends_whole, natural_of, natural_value, number_limit, whole_of};

use crate::text::Token;
use thiserror::Error;

/// Why a word is no number that is read.
#[derive(Clone, Copy, Debug, PartialEq, Eq, Error)]
pub enum NumFault {
    /// The word isn't in the form that is asked for.
    #[error("not a whole number")]
    NotWhole,
    /// The word is in the form, and its magnitude is above 2^62.
    #[error("number above 2^62")]
    TooLarge,
}

// The greatest magnitude that is read.
const LIMIT: u64 = 1 << 62;

// A digit may be put behind a value below this one.
const ROOM: u64 = 1 << 60;

// A number of so many digits is far below the greatest `u64`.
const SHORT_LEN: usize = 18;

// How many digits stand in front of a short word, and the number that they write.
fn short_digits(word: &[u8]) -> (usize, u64)
    requires { length word.now ≤ 18 }
    ensures in_range { result.0 ≤ length word.now }
    ensures run { result.0 ≡ prefix_len is_ascii_digit word.now }
    ensures value { natural_value (take result.0 word.now) ≡ result.1 }
{
    let mut value: u64 = 0;
    for (n, byte) in word.iter().enumerate() {
        if !byte.is_ascii_digit() {
            return (n, value);
        }
        value = value * 10 + u64::from(*byte - b'0');
    }
    (word.len(), value)
}

// How many digits stand in front, and the number that they write. Where that is above `LIMIT`, so is
// the value that is given for it.
fn long_digits(word: &[u8]) -> (usize, u64)
    ensures in_range { result.0 ≤ length word.now }
    ensures run { result.0 ≡ prefix_len is_ascii_digit word.now }
    ensures value { result.1 ≤ number_limit → natural_value (take result.0 word.now) ≡ result.1 }
    ensures above { number_limit < result.1 → number_limit < natural_value (take result.0 word.now) }
{
    let mut value: u64 = 0;
    for (n, byte) in word.iter().enumerate() {
        if !byte.is_ascii_digit() {
            return (n, value);
        }
        value = if value < ROOM {
            value * 10 + u64::from(*byte - b'0')
        } else {
            u64::MAX
        };
    }
    (word.len(), value)
}

// What `long_digits` gives, by the shorter way where the word is short.
fn leading_digits(word: &[u8]) -> (usize, u64)
    ensures in_range { result.0 ≤ length word.now }
    ensures run { result.0 ≡ prefix_len is_ascii_digit word.now }
    ensures value { result.1 ≤ number_limit → natural_value (take result.0 word.now) ≡ result.1 }
    ensures above { number_limit < result.1 → number_limit < natural_value (take result.0 word.now) }
{
    if word.len() <= SHORT_LEN {
        short_digits(word)
    } else {
        long_digits(word)
    }
}

// Whether the word begins with `-`, and the word without a sign.
fn split_sign(word: &[u8]) -> (bool, &[u8])
    ensures sign { result.0 ≡ starts_with_minus word.now }
    ensures body { result.1.now ≡ without_leading_sign word.now }
{
    match word {
        [b'-', body @ ..] => (true, body),
        [b'+', body @ ..] => (false, body),
        _ => (false, word),
    }
}

fn are_zeros(bytes: &[u8]) -> bool
    ensures { result ≡ list_all (λ zero. zero == 48) bytes.now }
{
    bytes.iter().all(|byte| *byte == b'0')
}

// Whether nothing stands there, or a point and then nothing but `0` digits.
fn ends_whole(bytes: &[u8]) -> bool
    ensures { result ≡ ends_whole bytes.now }
{
    match bytes.split_first() {
        None => true,
        Some((first, zeros)) => *first == b'.' && are_zeros(zeros),
    }
}

// The number with that sign and that magnitude.
fn signed(negative: bool, magnitude: u64) -> i64
    requires { magnitude ≤ number_limit }
    ensures { result ≡ (if negative then neg_ℤ (pos magnitude) else pos magnitude) }
{
    if negative {
        -(magnitude as i64)
    } else {
        magnitude as i64
    }
}

/// Reads a natural word: one or more of the digits 0 to 9, in decimal. `NotWhole` comes exactly where
/// the word isn't in this form, `TooLarge` exactly where it is and its value is above 2^62.
pub fn natural(t: Token<'_>) -> Result<u64, NumFault>
    ensures { result ≡ natural_of t.entry.text.now }
{
    let (digits, value) = leading_digits(t.text);
    if digits == 0 || digits < t.text.len() {
        return Err(NumFault::NotWhole);
    }
    if value > LIMIT {
        return Err(NumFault::TooLarge);
    }
    Ok(value)
}

/// Reads a whole word: an optional `+` or `-`, one or more digits, and optionally a point followed by
/// any number of `0` digits, in decimal. `NotWhole` comes exactly where the word isn't in this form,
/// `TooLarge` exactly where it is and its magnitude is above 2^62.
pub fn whole(t: Token<'_>) -> Result<i64, NumFault>
    ensures { result ≡ whole_of t.entry.text.now }
{
    let (negative, body) = split_sign(t.text);
    let (digits, value) = leading_digits(body);
    if digits == 0 || !ends_whole(&body[digits..]) {
        return Err(NumFault::NotWhole);
    }
    if value > LIMIT {
        return Err(NumFault::TooLarge);
    }
    Ok(signed(negative, value))
}
