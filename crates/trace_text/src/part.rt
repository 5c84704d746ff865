//! The words behind the name of an event.
ghost use Rattle.std.specs.Prelude.{◌≡◌, [], ◌∷◌, IfSome, ◌≤◌};
ghost use Rattle.pf_lex.specs.Token.{word_of};
ghost use Rattle.trace_text.specs.Parts.{number_of, two_of, three_of, op_of, asked_of};

use pf_core_model::Asked;
use pf_lex::{Token, Words, natural};
use pf_model::Op;
use row_text::is_word;

/// The number that a natural word says, which is at most `most`.
#[tactic(auto, unfolding(pf_lex::specs::Number::natural_of))]
pub fn number(most: u32, word: Token<'_>) -> Option<u32>
    ensures value { result ≡ number_of most (word_of word.entry) }
    ensures in_range { IfSome result (λ n. n ≤ most) }
{
    match natural(word) {
        Ok(number) if number <= u64::from(most) => Some(number as u32),
        _ => None,
    }
}

/// Two numbers.
#[derive(Clone, Copy)]
pub struct Two {
    pub a: u32,
    pub b: u32,
}

/// Three numbers.
#[derive(Clone, Copy)]
pub struct Three {
    pub a: u32,
    pub b: u32,
    pub c: u32,
}

// The two numbers of these words.
fn two_words(x: Token<'_>, y: Token<'_>) -> Option<Two>
    ensures { result ≡ two_of (word_of x.entry ∷ word_of y.entry ∷ []) }
{
    let a = number(u32::MAX, x)?;
    let b = number(u32::MAX, y)?;
    Some(Two { a, b })
}

/// The two numbers that these words are.
pub fn two_numbers(mut words: Words<'_>) -> Option<Two>
    ensures { result ≡ two_of words.entry.words }
{
    let (Some(x), Some(y), None) = (words.next(), words.next(), words.next()) else {
        return None;
    };
    two_words(x, y)
}

// The three numbers of these words, of which the second is at most `most`.
fn three_words(most: u32, x: Token<'_>, y: Token<'_>, z: Token<'_>) -> Option<Three>
    ensures { result ≡ three_of most (word_of x.entry ∷ word_of y.entry ∷ word_of z.entry ∷ []) }
{
    let a = number(u32::MAX, x)?;
    let b = number(most, y)?;
    let c = number(u32::MAX, z)?;
    Some(Three { a, b, c })
}

/// The three numbers that these words are, of which the second is at most `most`.
pub fn three_numbers(most: u32, mut words: Words<'_>) -> Option<Three>
    ensures { result ≡ three_of most words.entry.words }
{
    let (Some(x), Some(y), Some(z), None) = (words.next(), words.next(), words.next(), words.next())
    else {
        return None;
    };
    three_words(most, x, y, z)
}

// The operation of this name with these ends, in normal form.
fn op(name: Token<'_>, a: u32, b: u32) -> Option<Op>
    ensures { result ≡ op_of name.entry.text.now a b }
{
    if is_word(name, b"flip") {
        Some(Op::Flip { a, b }.normal())
    } else if is_word(name, b"bisect") {
        Some(Op::Bisect { a, b }.normal())
    } else if is_word(name, b"contract") {
        Some(Op::Contract { u: a, v: b })
    } else {
        None
    }
}

// What is asked by these words.
fn asked_words(chunk: Token<'_>, name: Token<'_>, x: Token<'_>, y: Token<'_>) -> Option<Asked>
    ensures { result ≡ asked_of (word_of chunk.entry ∷ word_of name.entry ∷ word_of x.entry ∷ word_of y.entry ∷ []) }
{
    let chunk = number(65535, chunk)?;
    let a = number(u32::MAX, x)?;
    let b = number(u32::MAX, y)?;
    let op = op(name, a, b)?;
    Some(Asked {
        chunk: chunk as u16,
        op,
    })
}

/// What is asked by this word and those behind it: a chunk, an operation and its two ends.
pub fn asked(chunk: Token<'_>, mut words: Words<'_>) -> Option<Asked>
    ensures { result ≡ asked_of (word_of chunk.entry ∷ words.entry.words) }
{
    let (Some(name), Some(x), Some(y), None) = (
        words.next(),
        words.next(),
        words.next(),
        words.next(),
    ) else {
        return None;
    };
    asked_words(chunk, name, x, y)
}
