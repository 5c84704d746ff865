//! The text of a journal.
ghost use Rattle.std.specs.Prelude.{◌≡◌, ◌++◌, ◌∷◌, [], OnOk, IfOk, decimal};
ghost use Rattle.pf_model.specs.Texts.{journal_text, line_text, op_words, entry_words};
ghost use Rattle.pf_model.specs.Replay.{HasTickets};

use pf_geom::NoMemory;
use pf_model::{Entry, Op};
use row_text::{push_end, push_number, push_word};
use std::alloc::{AllocError, Global};

/// Writes the text of a journal whose tickets are 0, 1, 2 and so on. The lower name of a
/// flip or a bisection stands first in it; a contraction has its names as they are.
pub fn journal_text(alloc: Global, h: &[Entry]) -> Result<Vec<u8>, NoMemory>
    requires { HasTickets h.now }
    ensures { IfOk result (λ text. text.items ≡ journal_text h.now) }
{
    entries_text(alloc, h).map_err(|_| NoMemory)
}

// The text of these entries.
fn entries_text(alloc: Global, h: &[Entry]) -> Result<Vec<u8>, AllocError>
    ensures { IfOk result (λ text. text.items ≡ journal_text h.now) }
{
    let mut text = Vec::new(alloc);
    push_word(&mut text, b"parfum journal 1", b'\n')?;
    for entry in h {
        push_entry(&mut text, *entry)?;
    }
    push_end(&mut text, h.len())?;
    Ok(text)
}

// Appends the line of an entry.
fn push_entry(text: &mut Vec<u8>, entry: Entry) -> Result<(), AllocError>
    ensures { OnOk result (text.new.items ≡ text.old.items ++ line_text (entry_words entry)) }
{
    let (word, a, b) = op_parts(entry.op);
    push_number(text, entry.ticket, b' ')?;
    push_number(text, entry.chunk, b' ')?;
    push_word(text, word, b' ')?;
    push_number(text, a, b' ')?;
    push_number(text, b, b'\n')?;
    Ok(())
}

// The word of an operation and its two names as they are written.
fn op_parts(op: Op) -> (&'static [u8], u32, u32)
    ensures { op_words op ≡ result.0.now ∷ decimal result.1 ∷ decimal result.2 ∷ [] }
{
    match op.normal() {
        Op::Flip { a, b } => (b"flip", a, b),
        Op::Bisect { a, b } => (b"bisect", a, b),
        Op::Contract { u, v } => (b"contract", u, v),
    }
}
