//! Lines and words of a text.
ghost use Rattle.std.specs.Prelude.{◌≡◌, ◌+◌, ◌<◌, ◌≤◌, [], ◌∷◌, length, MatchOption, IfNone, IfSome, IsTrue, true};
ghost use Rattle.std.specs.Iterator.{item_count};
ghost use Rattle.pf_lex.specs.Text.{is_nonempty, words_of, text_lines, text_lines_from, lines_past, lines_past_from};
ghost use Rattle.pf_lex.specs.Token.{TakesFirstWord};

use crate::scan::{gap_len, split_line, starts_word, word_len};
use std::marker::Model;

/// A word of a text: its bytes, its line and the column of its first byte. Lines and columns count
/// from 1, and columns count bytes.
#[derive(Clone, Copy, Debug)]
pub struct Token<'a> {
    pub text: &'a [u8],
    pub line: u32,
    pub column: u32,
}

/// The words of a line from left to right, from the first one that wasn't taken yet. Contracts see
/// them as the line's number and the list of these words.
#[derive(Drop)]
pub struct Words<'a> {
    rest: &'a [u8],
    line: u32,
    column: u32,
}

impl<'a> Model for Words<'a> {
    ghost use Rattle.std.specs.Prelude.{◌≤◌, ◌+◌, length};
    ghost use Rattle.pf_lex.specs.Text.{TextLine, words_from};

    ghost Value = { TextLine };

    ghost view = { λ s. record { line = s.line; words = words_from s.column s.rest.now } };

    ghost invariant = { λ s. s.column + length s.rest.now ≤ 268435457 };
}

impl<'a> Words<'a> {
    /// The number of the line, counted from 1.
    pub fn line(&self) -> u32
        ensures { result ≡ self.now.line }
    {
        self.line
    }

    /// Whether nothing at all is left of the line, not even gaps or a comment.
    pub fn is_at_end(&self) -> bool
        ensures { IsTrue result → self.now.words ≡ [] }
    {
        self.rest.is_empty()
    }

    // The words of a line, if it has any.
    fn of_line(text: &'a [u8], line: u32) -> Option<Words<'a>>
        requires { length text.now ≤ 268435456 }
        ensures none { IfNone result (words_of text.now ≡ []) }
        ensures some { IfSome result (λ words. words ≡ record { line = line; words = words_of text.now }) }
        ensures has_word { IfSome result (λ words. is_nonempty words.words ≡ true) }
    {
        let gaps = gap_len(text);
        let rest = &text[gaps..];
        if !starts_word(rest) {
            return None;
        }
        Some(Words {
            rest,
            line,
            column: 1 + gaps as u32,
        })
    }
}

/// The lines of a text that have a word, from the first one that wasn't taken yet. Contracts see them
/// as the list of these lines with their words, and the number of the line after the last.
#[derive(Drop)]
pub struct Lines<'a> {
    rest: &'a [u8],
    line: u32,
}

impl<'a> Model for Lines<'a> {
    ghost use Rattle.std.specs.Prelude.{◌<◌, ◌≤◌, ◌+◌, length};
    ghost use Rattle.pf_lex.specs.Text.{TextLeft, text_lines_from, lines_past_from};

    ghost Value = { TextLeft };

    ghost view = { λ s. record { left = text_lines_from s.line s.rest.now; past = lines_past_from s.line s.rest.now } };

    ghost invariant = { λ s. (0 < s.line) × (s.line + length s.rest.now ≤ 268435457) };
}

// The words of the first line that has one, what follows that line, and the number of the line after it.
fn next_words<'a>(bytes: &'a [u8], number: u32) -> (Option<Words<'a>>, &'a [u8], u32)
    requires numbered { 0 < number }
    requires in_range { number + length bytes.now ≤ 268435457 }
    ensures first { MatchOption result.0 (text_lines_from number bytes.now ≡ []) (λ words. text_lines_from number bytes.now ≡ words ∷ text_lines_from result.2 result.1.now) }
    ensures none_left { IfNone result.0 (text_lines_from result.2 result.1.now ≡ []) }
    ensures has_word { IfSome result.0 (λ words. is_nonempty words.words ≡ true) }
    ensures past { lines_past_from result.2 result.1.now ≡ lines_past_from number bytes.now }
    ensures numbered { 0 < result.2 }
    ensures in_range { result.2 + length result.1.now ≤ 268435457 }
{
    let mut rest = bytes;
    let mut line = number;
    while !rest.is_empty() {
        let (text, after) = split_line(rest);
        let words = Words::of_line(text, line);
        rest = after;
        line += 1;
        if words.is_some() {
            return (words, rest, line);
        }
    }
    (None, rest, line)
}

impl<'a> Lines<'a> {
    /// The lines of `bytes`, which are at most 268,435,456.
    pub fn new(bytes: &'a [u8]) -> Lines<'a>
        requires { length bytes.now ≤ 268435456 }
        ensures left { result.left ≡ text_lines bytes.now }
        ensures past { result.past ≡ lines_past bytes.now }
    {
        Lines {
            rest: bytes,
            line: 1,
        }
    }

    /// Takes the next line that has a word, and gives its words. Lines without one are passed over.
    /// `None` comes exactly where no further line has a word.
    pub fn next_line(&mut self) -> Option<Words<'a>>
        ensures first { MatchOption result (self.old.left ≡ []) (λ words. self.old.left ≡ words ∷ self.new.left) }
        ensures none_left { IfNone result (self.new.left ≡ []) }
        ensures has_word { IfSome result (λ words. is_nonempty words.words ≡ true) }
        ensures past { self.new.past ≡ self.old.past }
    {
        let (words, rest, line) = next_words(self.rest, self.line);
        self.rest = rest;
        self.line = line;
        words
    }

    /// The number of the line after the last line of the text, whatever was taken of it. The bytes
    /// that weren't taken yet are gone over for it.
    pub fn past(&self) -> u32
        ensures { result ≡ self.now.past }
    {
        let mut rest = self.rest;
        let mut line = self.line;
        while !rest.is_empty() {
            let (_, after) = split_line(rest);
            rest = after;
            line += 1;
        }
        line
    }
}

impl<'a> Iterator for Words<'a> {
    type Item = Token<'a>;

    ghost next_gives = { TakesFirstWord };

    ghost remaining = { item_count (λ line. line.words) };

    // Out of line, so that its loops have the registers to themselves wherever words are taken.
    #[inline(never)]
    fn next(&mut self) -> Option<Token<'a>> {
        let gaps = gap_len(self.rest);
        let from = &self.rest[gaps..];
        let len = word_len(from);
        if len == 0 {
            return None;
        }
        let column = self.column + gaps as u32;
        let (text, rest) = from.split_at(len);
        self.rest = rest;
        self.column = column + len as u32;
        Some(Token {
            text,
            line: self.line,
            column,
        })
    }
}
