//! The event that a line says.
ghost use Rattle.std.specs.Prelude.{◌≡◌, ◌∷◌};
ghost use Rattle.pf_lex.specs.Token.{word_of};
ghost use Rattle.trace_text.specs.Events.{split_of, push_of, note_of, commit_of, two_event_of, event_of};

use crate::part::{Two, asked, number, three_numbers, two_numbers};
use pf_core_model::Event;
use pf_lex::{Token, Words};
use row_text::is_word;

// The split of these words.
fn split(words: Words<'_>) -> Option<Event>
    ensures { result ≡ split_of words.entry.words }
{
    match three_numbers(u32::MAX, words) {
        Some(n) => Some(Event::Split {
            a: n.a,
            b: n.b,
            share: n.c,
        }),
        None => None,
    }
}

// The push of these words.
fn push(words: Words<'_>) -> Option<Event>
    ensures { result ≡ push_of words.entry.words }
{
    match three_numbers(65535, words) {
        Some(n) => Some(Event::Push {
            a: n.a,
            chunk: n.b as u16,
            n: n.c,
        }),
        None => None,
    }
}

// The note of these words.
fn note(mut words: Words<'_>) -> Option<Event>
    ensures { result ≡ note_of words.entry.words }
{
    let first = words.next()?;
    let a = number(u32::MAX, first)?;
    match words.next() {
        Some(chunk) => match asked(chunk, words) {
            Some(asked) => Some(Event::Note {
                a,
                asked: Some(asked),
            }),
            None => None,
        },
        None => Some(Event::Note { a, asked: None }),
    }
}

// The commit of these words.
fn commit(mut words: Words<'_>) -> Option<Event>
    ensures { result ≡ commit_of words.entry.words }
{
    let first = words.next()?;
    let a = number(u32::MAX, first)?;
    let chunk = words.next()?;
    match asked(chunk, words) {
        Some(asked) => Some(Event::Commit {
            a,
            chunk: asked.chunk,
            op: asked.op,
        }),
        None => None,
    }
}

// The event of this name with two numbers.
fn named(name: Token<'_>, n: Two) -> Option<Event>
    ensures { result ≡ Rattle.trace_text.specs.Events.named_of name.entry.text.now n }
{
    let Two { a, b } = n;
    if is_word(name, b"lock") {
        Some(Event::Lock { a, n: b })
    } else if is_word(name, b"lost") {
        Some(Event::Lost { a, n: b })
    } else if is_word(name, b"birth") {
        Some(Event::Birth { a, n: b })
    } else if is_word(name, b"release") {
        Some(Event::Release { a, n: b })
    } else if is_word(name, b"bury") {
        Some(Event::Bury { a, n: b })
    } else if is_word(name, b"join") {
        Some(Event::Join { a, b })
    } else {
        None
    }
}

// The event of this name and these two words.
fn two_event(name: Token<'_>, words: Words<'_>) -> Option<Event>
    ensures { result ≡ two_event_of name.entry.text.now words.entry.words }
{
    match two_numbers(words) {
        Some(n) => named(name, n),
        None => None,
    }
}

/// The event that the words of a line say.
pub fn event(mut words: Words<'_>) -> Option<Event>
    ensures { result ≡ event_of words.entry.words }
{
    let name = words.next()?;
    if is_word(name, b"split") {
        split(words)
    } else if is_word(name, b"push") {
        push(words)
    } else if is_word(name, b"note") {
        note(words)
    } else if is_word(name, b"commit") {
        commit(words)
    } else {
        two_event(name, words)
    }
}
