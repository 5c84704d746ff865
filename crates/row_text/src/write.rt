//! Rows written word by word.
ghost use Rattle.std.specs.Prelude.{◌≡◌, [], ◌∷◌, ◌++◌, OnOk, codes, decimal};
ghost use Rattle.pf_lex.specs.Written.{written_line};

use itoa::{Buffer, Integer};
use std::alloc::AllocError;

/// Appends a word and the byte that ends it.
pub fn push_word(text: &mut Vec<u8>, word: &[u8], end: u8) -> Result<(), AllocError>
    ensures { OnOk result (text.new.items ≡ text.old.items ++ word.now ++ end ∷ []) }
{
    text.extend_from_slice(word)?;
    text.push(end)?;
    Ok(())
}

/// Appends a number in decimal and the byte that ends it.
pub fn push_number<I: Integer>(text: &mut Vec<u8>, number: I, end: u8) -> Result<(), AllocError>
    ensures { OnOk result (text.new.items ≡ text.old.items ++ I.text number ++ end ∷ []) }
{
    push_word(text, Buffer::new().format(number).as_bytes(), end)
}

/// Appends the line `end count`, which closes a text of so many rows.
pub fn push_end(text: &mut Vec<u8>, count: usize) -> Result<(), AllocError>
    ensures { OnOk result (text.new.items ≡ text.old.items ++ written_line (codes "end" ∷ decimal count ∷ [])) }
{
    push_word(text, b"end", b' ')?;
    push_number(text, count, b'\n')
}
