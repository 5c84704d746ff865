// The text of a rest list.
ghost use Rattle.std.specs.Prelude.{◌≡◌, [], ◌∷◌, ◌++◌, IfOk, OnOk};
ghost use Rattle.std.specs.List.{join_with_byte};
ghost use Rattle.pf_model.specs.Texts.{line_text, rest_text, rest_words, outcome_words};

use crate::condition::{put_condition, put_names};
use crate::line::put_line;
use pf_geom::NoMemory;
use pf_model::{Cond, RestLine};
use std::alloc::{AllocError, Global};

/// Writes the text of a rest list: its heading, a line for each line of the list, and their number.
pub fn rest_text(alloc: Global, lines: &[RestLine]) -> Result<Vec<u8>, NoMemory>
    ensures { IfOk result (λ text. text.items ≡ rest_text lines.now) }
{
    put_lines(alloc, lines).map_err(|_| NoMemory)
}

// The whole text.
fn put_lines(alloc: Global, lines: &[RestLine]) -> Result<Vec<u8>, AllocError>
    ensures { IfOk result (λ text. text.items ≡ rest_text lines.now) }
{
    let mut text = Vec::from_slice(alloc, b"parfum rest 1\n")?;
    for line in lines {
        put_rest_line(&mut text, *line)?;
    }
    put_line(&mut text, b"end ", lines.len())?;
    Ok(text)
}

// Puts a line of the list.
fn put_rest_line(text: &mut Vec<u8>, line: RestLine) -> Result<(), AllocError>
    ensures { OnOk result (text.new.items ≡ text.old.items ++ line_text (rest_words line)) }
{
    match line {
        RestLine::Long { a, b, c, d, cond } => {
            put_names(text, b"long", a, b)?;
            put_names(text, b" at", c, d)?;
            put_outcome(text, cond)?;
        }
        RestLine::Short {
            a,
            b,
            onto_b,
            onto_a,
        } => {
            put_names(text, b"short", a, b)?;
            put_outcome(text, onto_b)?;
            put_outcome(text, onto_a)?;
        }
        RestLine::Flip { a, b } => put_names(text, b"flip", a, b)?,
    }
    text.extend_from_slice(b"\n")
}

// Puts the condition that forbids an operation, or that it passes, behind the words before it.
fn put_outcome(text: &mut Vec<u8>, cond: Option<Cond>) -> Result<(), AllocError>
    ensures { OnOk result (text.new.items ≡ text.old.items ++ 32 ∷ join_with_byte 32 (outcome_words cond)) }
{
    text.push(b' ')?;
    match cond {
        None => text.extend_from_slice(b"passes"),
        Some(cond) => put_condition(text, cond),
    }
}
