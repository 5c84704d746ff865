//! The steps by which a journal is read.
ghost use Rattle.std.specs.Prelude.{◌≡◌, ◌≤◌, IfOk};
ghost use Rattle.pf_lex.specs.Token.{word_of};
ghost use Rattle.journal_text.specs.Journal.{number_at, due_at, kind_at};

use crate::fault::JourErr;
use pf_lex::Token;
use row_text::{is_word, natural_up_to, refused};

/// The kind of an operation.
#[derive(Clone, Copy)]
pub enum Kind {
    Flip,
    Bisect,
    Contract,
}

/// The number that a natural word says, which is at most `most`.
pub fn number(most: u32, line: u32, word: Token<'_>) -> Result<u32, JourErr>
    ensures value { result ≡ number_at most line (word_of word.entry) }
    ensures in_range { IfOk result (λ number. number ≤ most) }
{
    match natural_up_to::<JourErr>(u64::from(most), line, word) {
        Ok(number) => Ok(number as u32),
        Err(fault) => Err(fault),
    }
}

/// Refuses a number that isn't the one that is due.
pub fn due_number(line: u32, due: u32, number: u32) -> Result<u32, JourErr>
    ensures value { result ≡ due_at line due number }
    ensures due { IfOk result (λ number. number ≡ due) }
{
    if number == due {
        Ok(number)
    } else {
        Err(JourErr::Ticket {
            line,
            expected: due,
            found: number,
        })
    }
}

/// The kind of operation that a word says.
pub fn kind_of(line: u32, word: Token<'_>) -> Result<Kind, JourErr>
    ensures { result ≡ kind_at line (word_of word.entry) }
{
    if is_word(word, b"flip") {
        Ok(Kind::Flip)
    } else if is_word(word, b"bisect") {
        Ok(Kind::Bisect)
    } else if is_word(word, b"contract") {
        Ok(Kind::Contract)
    } else {
        Err(refused(line, word))
    }
}
