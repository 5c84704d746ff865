//! The text that a trace is answered by, line by line.
ghost use Rattle.std.specs.Prelude.{◌≡◌, [], ◌∷◌, ◌++◌, OnOk};
ghost use Rattle.pf_model.specs.Texts.{line_text, lines_text};
ghost use Rattle.trace_text.specs.Verdicts.{value_name, verdict_words, node_words, closing_lines};

use itoa::Integer;
use pf_core_model::{Event, Verdict};
use row_text::{push_number, push_word};
use std::alloc::AllocError;

/// Appends the line of an event: its number, counted from 1, and what became of it. A lost try says who holds
/// the node, a commit its ticket, and a note the ticket count.
pub fn push_verdict(
    text: &mut Vec<u8>,
    number: u64,
    event: Event,
    verdict: Verdict,
) -> Result<(), AllocError>
    ensures { OnOk result (text.new.items ≡ text.old.items ++ line_text (verdict_words number event verdict)) }
{
    push_number(text, number, b' ')?;
    match verdict {
        Verdict::Ignored => push_word(text, b"ignored", b'\n')?,
        Verdict::Taken { value: None } => push_word(text, b"taken", b'\n')?,
        Verdict::Taken { value: Some(value) } => {
            push_word(text, b"taken", b' ')?;
            push_word(text, value_name(event), b' ')?;
            push_number(text, value, b'\n')?;
        }
    }
    Ok(())
}

// What the number is called that an event gives.
fn value_name(event: Event) -> &'static [u8]
    ensures { result.now ≡ value_name event }
{
    match event {
        Event::Lost { .. } => b"holder",
        _ => b"ticket",
    }
}

/// How things stand after the events: the ticket count, how many nodes are free, held, dead, and never live or
/// unborn, and how many triangles have free corners alone.
#[derive(Clone, Copy, Debug, PartialEq, Eq)]
pub struct Closing {
    pub tickets: u32,
    pub free: u32,
    pub held: u32,
    pub dead: u32,
    pub never: u32,
    pub triangles: usize,
}

/// Appends the three lines that close the text.
pub fn push_closing(text: &mut Vec<u8>, closing: Closing) -> Result<(), AllocError>
    ensures { OnOk result (text.new.items ≡ text.old.items ++ lines_text (closing_lines closing)) }
{
    push_count(text, b"tickets", closing.tickets)?;
    push_nodes(text, closing)?;
    push_count(text, b"triangles", closing.triangles)?;
    Ok(())
}

// Appends the line of a number: its name, and the number.
fn push_count<I: Integer>(text: &mut Vec<u8>, name: &[u8], number: I) -> Result<(), AllocError>
    ensures { OnOk result (text.new.items ≡ text.old.items ++ line_text (name.now ∷ I.text number ∷ [])) }
{
    push_word(text, name, b' ')?;
    push_number(text, number, b'\n')?;
    Ok(())
}

// Appends the line that counts the names by their words.
fn push_nodes(text: &mut Vec<u8>, closing: Closing) -> Result<(), AllocError>
    ensures { OnOk result (text.new.items ≡ text.old.items ++ line_text (node_words closing)) }
{
    push_word(text, b"free", b' ')?;
    push_number(text, closing.free, b' ')?;
    push_word(text, b"held", b' ')?;
    push_number(text, closing.held, b' ')?;
    push_word(text, b"dead", b' ')?;
    push_number(text, closing.dead, b' ')?;
    push_word(text, b"never", b' ')?;
    push_number(text, closing.never, b'\n')?;
    Ok(())
}
