//! Reading `.ele` files.
ghost use Rattle.std.specs.Prelude.{◌≡◌, ◌+◌, ◌≤◌, ◌<◌, List, [], ◌∷◌, length, All, Err, IfOk, IfErr};
ghost use Rattle.pf_lex.specs.Token.{word_of};
ghost use Rattle.row_text.specs.Rows.{Reads};
ghost use Rattle.tri_text.specs.Reading.{Gives, tri_rows};
ghost use Rattle.tri_text.specs.Ele.{IsTriangleOver, ele_heading_of, corner_in, triangle_words, triangle_of, ele_read};

use crate::fault::TriErr;
use crate::node::Nodes;
use crate::words::{count_at, expect_number, natural_at};
use pf_lex::{Lines, Token, Words};
use row_text::{end_text, keep, needed_row};
use std::alloc::Global;

// The number of triangles that a heading says.
fn heading(mut words: Words<'_>) -> Result<u64, TriErr>
    ensures gives { result ≡ ele_heading_of words.entry.line words.entry.words }
    ensures few { IfOk result (λ count. count ≤ 2097152) }
{
    let line = words.line();
    let (Some(triangles), Some(order)) = (words.next(), words.next()) else {
        return Err(TriErr::Short { line });
    };
    let count = count_at(2_097_152, line, triangles)?;
    let found = natural_at(line, order)?;
    if found != 3 {
        return Err(TriErr::Order { found });
    }
    Ok(count)
}

// The place of a vertex among the vertices, of which there are so many, by its number.
#[tactic(auto, unfolding(crate::specs::Ele::corner_in))]
fn corner(base: u32, vertices: u32, line: u32, word: Token<'_>) -> Result<u32, TriErr>
    ensures gives { result ≡ corner_in base vertices line (word_of word.entry) }
    ensures place { IfOk result (λ place. place < vertices) }
{
    let number = natural_at(line, word)?;
    let base = u64::from(base);
    if number < base || number >= base + u64::from(vertices) {
        return Err(TriErr::Range { line });
    }
    Ok((number - base) as u32)
}

// The corners of the triangle whose number is due, of a line whose first word is given.
fn triangle(
    number: Token<'_>,
    mut words: Words<'_>,
    due: u64,
    base: u32,
    vertices: u32,
) -> Result<[u32; 3], TriErr>
    ensures gives { result ≡ triangle_words base vertices due number.entry.line (word_of number.entry ∷ words.entry.words) }
    ensures corners { IfOk result (IsTriangleOver vertices) }
{
    let line = number.line;
    let (Some(a), Some(b), Some(c)) = (words.next(), words.next(), words.next()) else {
        return Err(TriErr::Short { line });
    };
    expect_number(due, line, number)?;
    let a = corner(base, vertices, line, a)?;
    let b = corner(base, vertices, line, b)?;
    let c = corner(base, vertices, line, c)?;
    Ok([a, b, c])
}

// The triangles, a line for each, and no further line.
fn triangles(
    alloc: Global,
    mut lines: Lines<'_>,
    count: u64,
    base: u32,
    vertices: u32,
) -> Result<Vec<[u32; 3]>, TriErr>
    requires { count ≤ 2097152 }
    ensures reads { Reads TriErr.Memory (λ triangles. triangles.items) result (tri_rows (triangle_of base vertices) lines.entry.past count base lines.entry.left) }
    ensures count { IfOk result (λ triangles. length triangles.items ≡ count) }
    ensures corners { IfOk result (λ triangles. All (IsTriangleOver vertices) triangles.items) }
{
    let mut triangles = Vec::new(alloc);
    let mut fits = true;
    for place in 0..count {
        let mut words = needed_row::<TriErr>(&mut lines)?;
        let Some(number) = words.next() else {
            unreachable!()
        };
        let due = base as u64 + place;
        let corners = triangle(number, words, due, base, vertices)?;
        fits = keep(&mut triangles, fits, corners);
    }
    end_text::<TriErr>(&mut lines)?;
    if !fits {
        return Err(TriErr::Memory);
    }
    Ok(triangles)
}

/// Reads an `.ele` file of Shewchuk's Triangle over the vertices of its `.node` file. A triangle's corners
/// are places among `nodes.points`, counted from 0, in the order of the file: they may turn either way.
///
/// The first line with words is the heading, which begins with the number of triangles, at most
/// 2,097,152, and the number of nodes per triangle, 3. Then a line for each triangle begins with its
/// number and the numbers of its three corners. What follows on these lines is passed over. Triangles are
/// numbered from the base of the vertices.
///
/// An error names the first fault of the file, as for [`read_node`](crate::read_node).
#[tactic(auto, unfolding(crate::specs::Ele::ele_read))]
pub fn read_ele(alloc: Global, bytes: &[u8], nodes: &Nodes) -> Result<Vec<[u32; 3]>, TriErr>
    requires size { length bytes.now ≤ 268435456 }
    requires points { length nodes.now.points.items ≤ 4294967295 }

    // The value of the grammar, or its first fault.
    ensures gives { Gives (λ triangles. triangles.items) result (ele_read nodes.now.base (length nodes.now.points.items) bytes.now) }

    // A file with a fault is answered by its first one, whatever memory there is.
    ensures refused { IfErr (ele_read nodes.now.base (length nodes.now.points.items) bytes.now) (λ fault. result ≡ Err fault) }

    // What callers need of the value.
    ensures count { IfOk result (λ triangles. length triangles.items ≤ 2097152) }
    ensures corners { IfOk result (λ triangles. All (IsTriangleOver (length nodes.now.points.items)) triangles.items) }
{
    let mut lines = Lines::new(bytes);
    let count = heading(needed_row::<TriErr>(&mut lines)?)?;
    triangles(alloc, lines, count, nodes.base, nodes.points.len() as u32)
}
