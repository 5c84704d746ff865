//! Lines and words taken one after another.
ghost use Rattle.std.specs.Prelude.{◌≡◌, ◌≤◌, ◌^◌, [], ◌∷◌, ◌++◌, Ok, true, IfOk, MatchResult};
ghost use Rattle.std.specs.Str.{bytes_eq};
ghost use Rattle.pf_lex.specs.Text.{is_nonempty};
ghost use Rattle.pf_lex.specs.Token.{word_of};
ghost use Rattle.row_text.specs.Rows.{at_line_end, at_text_end, natural_within};

use crate::fault::RowFault;
use pf_lex::{Lines, Token, Words, natural};

/// Takes the next line with words, which has to be there: else the line after the last is `short`.
pub fn needed_row<'a, E: RowFault>(lines: &mut Lines<'a>) -> Result<Words<'a>, E>
    ensures row { MatchResult result
        (λ words. lines.old.left ≡ words ∷ lines.new.left)
        (λ fault. (lines.old.left ≡ []) × (fault ≡ E.row_short lines.old.past)) }
    ensures has_word { IfOk result (λ words. is_nonempty words.words ≡ true) }
    ensures past { lines.new.past ≡ lines.old.past }
{
    match lines.next_line() {
        Some(words) => Ok(words),
        None => Err(E::short(lines.past())),
    }
}

/// Refuses a further line with words, as `extra`.
pub fn end_text<E: RowFault>(lines: &mut Lines<'_>) -> Result<(), E>
    ensures { result ≡ at_text_end E.line_extra lines.old.left (Ok tt) }
{
    match lines.next_line() {
        Some(words) => Err(E::extra(words.line())),
        None => Ok(()),
    }
}

/// Refuses a further word on the line with this number.
pub fn end_line<E: RowFault>(line: u32, mut words: Words<'_>) -> Result<(), E>
    ensures { result ≡ at_line_end (E.word_refused line) words.entry.words (Ok tt) }
{
    // Most lines end right behind their last word.
    if words.is_at_end() {
        return Ok(());
    }
    match words.next() {
        Some(word) => Err(refused(line, word)),
        None => Ok(()),
    }
}

/// The fault of a word that is refused, on the line with this number.
pub fn refused<E: RowFault>(line: u32, word: Token<'_>) -> E
    ensures { result ≡ E.word_refused line word.entry.column }
{
    E::word(line, word.column)
}

/// Whether the word is this one.
pub fn is_word(word: Token<'_>, text: &[u8]) -> bool
    ensures { result ≡ bytes_eq word.entry.text.now text.now }
{
    word.text == text
}

/// The number that a natural word says, which is at most `most`. Any other word is refused.
#[tactic(auto, unfolding(pf_lex::specs::Number::natural_of))]
pub fn natural_up_to<E: RowFault>(most: u64, line: u32, word: Token<'_>) -> Result<u64, E>
    requires { most ≤ 2 ^ 62 }
    ensures value { result ≡ natural_within (E.word_refused line) most (word_of word.entry) }
    ensures in_range { IfOk result (λ number. number ≤ most) }
{
    match natural(word) {
        Ok(number) if number <= most => Ok(number),
        _ => Err(refused(line, word)),
    }
}

/// Appends a value to those that were read, where there was room for all of them. Whether there still
/// is: a reader goes on without it, so that a fault further down is found, and answers want of memory
/// at the end.
pub fn keep<T: Copy>(values: &mut Vec<T>, fits: bool, value: T) -> bool
    ensures { result ≡ true → (fits ≡ true) × (values.new.items ≡ values.old.items ++ value ∷ []) }
{
    fits && values.push(value).is_ok()
}
