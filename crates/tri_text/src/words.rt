//! Which numbers the words of a line are.
ghost use Rattle.std.specs.Prelude.{◌≡◌, ◌≤◌, IfOk};
ghost use Rattle.pf_lex.specs.Token.{word_of};
ghost use Rattle.tri_text.specs.Reading.{natural_in, count_in, due_in};

use crate::fault::TriErr;
use pf_lex::{NumFault, Token, natural};
use row_text::refused;

/// A number that was read, or its fault.
#[tactic(auto, unfolding(crate::specs::Reading::natural_in))]
pub fn natural_at(line: u32, word: Token<'_>) -> Result<u64, TriErr>
    ensures { result ≡ natural_in line (word_of word.entry) }
{
    match natural(word) {
        Ok(number) => Ok(number),
        Err(NumFault::NotWhole) => Err(refused(line, word)),
        Err(NumFault::TooLarge) => Err(TriErr::Range { line }),
    }
}

/// How many rows the heading says, at most `most`.
#[tactic(auto, unfolding(crate::specs::Reading::count_in))]
pub fn count_at(most: u64, line: u32, word: Token<'_>) -> Result<u64, TriErr>
    ensures gives { result ≡ count_in most line (word_of word.entry) }
    ensures most { IfOk result (λ count. count ≤ most) }
{
    let count = natural_at(line, word)?;
    if count > most {
        return Err(TriErr::TooMany { count });
    }
    Ok(count)
}

/// The number of a row, which is the one that is due.
#[tactic(auto, unfolding(crate::specs::Reading::due_in))]
pub fn expect_number(due: u64, line: u32, word: Token<'_>) -> Result<u64, TriErr>
    ensures { result ≡ due_in due line (word_of word.entry) }
{
    let found = natural_at(line, word)?;
    if found != due {
        return Err(TriErr::Number {
            line,
            expected: due,
            found,
        });
    }
    Ok(found)
}
