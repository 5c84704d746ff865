//! A journal's text, read.
ghost use Rattle.std.specs.Prelude.{◌≡◌, ◌≢◌, ◌≤◌, ◌∷◌, length, All, Ok, Err, IfOk, IfErr};
ghost use Rattle.pf_lex.specs.Token.{word_of};
ghost use Rattle.pf_model.specs.Ends.{IsNormal};
ghost use Rattle.pf_model.specs.Replay.{HasTickets};
ghost use Rattle.row_text.specs.Rows.{Reads};
ghost use Rattle.journal_text.specs.Journal.{op_of, entry_on, end_on, entries_on, is_head, journal_of};
ghost use Rattle.journal_text.specs.EntryWords.{entry_words};

use crate::fault::JourErr;
use crate::step::{Kind, due_number, kind_of, number};
use pf_lex::{Lines, Token, Words};
use pf_model::{Entry, Op};
use row_text::{end_line, end_text, is_word, keep};
use std::alloc::Global;

/// Reads a journal: the heading `parfum journal 1`, a line `ticket chunk op a b` for each entry, and
/// the line `end count`. The tickets count up from 0. An `op` is `flip`, `bisect` or `contract`. The
/// names of a flip or a bisection are turned round where the lower one stands second; those of a
/// contraction stay as they are. `JourErr::Memory` comes only of a text without a fault: where memory
/// runs out, the lines that are left are still tested.
pub fn read_journal(alloc: Global, bytes: &[u8]) -> Result<Vec<Entry>, JourErr>
    requires { length bytes.now ≤ 268435456 }
    ensures value { IfOk result (λ entries. journal_of bytes.now ≡ Ok entries.items) }
    ensures first_fault { IfErr result (λ fault. fault ≢ JourErr.Memory → journal_of bytes.now ≡ Err fault) }

    // A text with a fault is answered by its first one, whatever memory there is.
    ensures refused { IfErr (journal_of bytes.now) (λ fault. result ≡ Err fault) }

    ensures tickets { IfOk result (λ entries. HasTickets entries.items) }
    ensures normal { IfOk result (λ entries. All (λ entry. IsNormal entry.op) entries.items) }
{
    let mut lines = Lines::new(bytes);
    let Some(words) = lines.next_line() else {
        return Err(JourErr::Head);
    };
    if !is_heading(words) {
        return Err(JourErr::Head);
    }
    entries(alloc, lines)
}

// The entries below the heading, and the end line.
#[inline(never)]
fn entries(alloc: Global, mut lines: Lines<'_>) -> Result<Vec<Entry>, JourErr>
    requires { length lines.left ≤ 268435457 }
    ensures reads { Reads JourErr.Memory (λ entries. entries.items) result (entries_on lines.entry.past 0 lines.entry.left) }
    ensures tickets { IfOk result (λ entries. HasTickets entries.items) }
    ensures normal { IfOk result (λ entries. All (λ entry. IsNormal entry.op) entries.items) }
{
    let mut entries = Vec::new(alloc);
    let mut due: u32 = 0;
    let mut fits = true;
    while let Some(mut words) = lines.next_line() {
        let Some(first) = words.next() else {
            unreachable!()
        };
        if is_word(first, b"end") {
            end_count(first, words, due)?;
            end_text::<JourErr>(&mut lines)?;
            if !fits {
                return Err(JourErr::Memory);
            }
            return Ok(entries);
        }
        let entry = entry(first, words, due)?;
        fits = keep(&mut entries, fits, entry);
        due += 1;
    }
    Err(JourErr::Short { line: lines.past() })
}

// Whether the line is the heading.
fn is_heading(mut words: Words<'_>) -> bool
    ensures { result ≡ is_head words.entry.words }
{
    let (Some(name), Some(what), Some(version), None) = (
        words.next(),
        words.next(),
        words.next(),
        words.next(),
    ) else {
        return false;
    };
    is_word(name, b"parfum") && is_word(what, b"journal") && is_word(version, b"1")
}

// The count that the end line says, whose first word is given; so many entries stand above it.
#[tactic(auto, unfolding(crate::specs::Journal::end_on))]
fn end_count(name: Token<'_>, mut words: Words<'_>, due: u32) -> Result<u32, JourErr>
    ensures { result ≡ end_on due name.entry.line (word_of name.entry ∷ words.entry.words) }
{
    let line = name.line;
    let count = words.next().ok_or(JourErr::Short { line })?;
    let count = number(u32::MAX, line, count)?;
    let count = due_number(line, due, count)?;
    end_line::<JourErr>(line, words)?;
    Ok(count)
}

// The words of an entry.
#[derive(Clone, Copy)]
struct EntryWords<'a> {
    ticket: Token<'a>,
    chunk: Token<'a>,
    kind: Token<'a>,
    a: Token<'a>,
    b: Token<'a>,
}

// The entry of a line whose first word is given, below so many others.
//
// Out of line, as the reader is, so that each has the registers to itself.
#[tactic(auto, unfolding(crate::specs::Journal::entry_on))]
#[inline(never)]
fn entry(ticket: Token<'_>, mut words: Words<'_>, due: u32) -> Result<Entry, JourErr>
    ensures value { result ≡ entry_on due ticket.entry.line (word_of ticket.entry ∷ words.entry.words) }
    ensures ticket { IfOk result (λ entry. entry.ticket ≡ due) }
    ensures normal { IfOk result (λ entry. IsNormal entry.op) }
{
    let line = ticket.line;
    let (Some(chunk), Some(kind), Some(a), Some(b)) = (
        words.next(),
        words.next(),
        words.next(),
        words.next(),
    ) else {
        return Err(JourErr::Short { line });
    };
    let entry = EntryWords {
        ticket,
        chunk,
        kind,
        a,
        b,
    };
    entry_of(line, entry, words, due)
}

// The entry with these words and whatever is left on its line, below so many others.
#[tactic(auto, unfolding(crate::specs::Journal::entry_on))]
fn entry_of(line: u32, entry: EntryWords<'_>, others: Words<'_>, due: u32) -> Result<Entry, JourErr>
    ensures value { result ≡ entry_on due line (entry_words entry.entry others.entry.words) }
    ensures ticket { IfOk result (λ entry. entry.ticket ≡ due) }
    ensures normal { IfOk result (λ entry. IsNormal entry.op) }
{
    let ticket = number(u32::MAX, line, entry.ticket)?;
    let ticket = due_number(line, due, ticket)?;
    let chunk = number(u32::from(u16::MAX), line, entry.chunk)?;
    let kind = kind_of(line, entry.kind)?;
    let a = number(u32::MAX, line, entry.a)?;
    let b = number(u32::MAX, line, entry.b)?;
    end_line::<JourErr>(line, others)?;
    Ok(Entry {
        ticket,
        chunk: chunk as u16,
        op: op_of(kind, a, b).normal(),
    })
}

// The operation of a kind with two names.
fn op_of(kind: Kind, a: u32, b: u32) -> Op
    ensures { result ≡ op_of kind a b }
{
    match kind {
        Kind::Flip => Op::Flip { a, b },
        Kind::Bisect => Op::Bisect { a, b },
        Kind::Contract => Op::Contract { u: a, v: b },
    }
}
