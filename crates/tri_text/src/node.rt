//! Reading `.node` files.
ghost use Rattle.std.specs.Prelude.{◌≡◌, ℕ, ◌≤◌, ◌<◌, ◌∷◌, List, length, All, Err, IfOk, IfErr, if◌then◌else◌};
ghost use Rattle.pf_geom.specs.Plane.{IsInRange, IsWithin};
ghost use Rattle.pf_lex.specs.Number.{natural_of};
ghost use Rattle.pf_lex.specs.Token.{word_of};
ghost use Rattle.row_text.specs.Rows.{Reads};
ghost use Rattle.tri_text.specs.Reading.{Gives};
ghost use Rattle.tri_text.specs.Node.{vertices_of, node_heading_of, coordinate_in, vertex_words, is_one, vertex_rows, node_read};

use crate::fault::TriErr;
use crate::words::{count_at, expect_number, natural_at};
use pf_geom::Point;
use pf_lex::{Lines, NumFault, Token, Words, natural, whole};
use row_text::{end_text, keep, needed_row, refused};
use std::alloc::Global;

/// The vertices of a `.node` file: the number of the first, and their points in order.
#[derive(Debug, Drop)]
pub struct Nodes {
    pub base: u32,
    pub points: Vec<Point>,
}

// The number of vertices that a heading says.
fn heading(mut words: Words<'_>) -> Result<u64, TriErr>
    ensures gives { result ≡ node_heading_of words.entry.line words.entry.words }
    ensures few { IfOk result (λ count. count ≤ 1048576) }
{
    let line = words.line();
    let (Some(vertices), Some(dimension)) = (words.next(), words.next()) else {
        return Err(TriErr::Short { line });
    };
    let count = count_at(1_048_576, line, vertices)?;
    let found = natural_at(line, dimension)?;
    if found != 2 {
        return Err(TriErr::Dimension { found });
    }
    Ok(count)
}

// A coordinate, multiplied by the scale.
#[tactic(auto, unfolding(crate::specs::Node::coordinate_in))]
fn coordinate(scale: u32, line: u32, word: Token<'_>) -> Result<i32, TriErr>
    ensures gives { result ≡ coordinate_in scale line (word_of word.entry) }
    ensures in_range { IfOk result (IsWithin 268435456) }
{
    match whole(word) {
        Ok(value) => match value.checked_mul(i64::from(scale)) {
            Some(scaled) if -268_435_456 <= scaled && scaled <= 268_435_456 => Ok(scaled as i32),
            _ => Err(TriErr::Range { line }),
        },
        Err(NumFault::NotWhole) => Err(refused(line, word)),
        Err(NumFault::TooLarge) => Err(TriErr::Range { line }),
    }
}

// The point of the vertex whose number is due, of a line whose first word is given.
fn vertex(number: Token<'_>, mut words: Words<'_>, due: u64, scale: u32) -> Result<Point, TriErr>
    ensures gives { result ≡ vertex_words scale due number.entry.line (word_of number.entry ∷ words.entry.words) }
    ensures in_range { IfOk result IsInRange }
{
    let line = number.line;
    let (Some(x), Some(y)) = (words.next(), words.next()) else {
        return Err(TriErr::Short { line });
    };
    expect_number(due, line, number)?;
    let x = coordinate(scale, line, x)?;
    let y = coordinate(scale, line, y)?;
    Ok(Point { x, y })
}

// The base, where the vertex at `place` has the number that begins `number`: the first vertex shows it.
fn base_at(place: u64, base: u64, number: Token<'_>) -> u64
    ensures first { place ≡ 0 → result ≡ (if is_one (natural_of number.entry.text.now) then 1 else 0) }
    ensures later { 0 < place → result ≡ base }
    ensures small { base ≤ 1 → result ≤ 1 }
{
    if place > 0 {
        return base;
    }
    match natural(number) {
        Ok(1) => 1,
        _ => 0,
    }
}

// The vertices, a line for each, and no further line.
fn vertices(alloc: Global, mut lines: Lines<'_>, count: u64, scale: u32) -> Result<Nodes, TriErr>
    requires { count ≤ 1048576 }
    ensures reads { Reads TriErr.Memory vertices_of result (vertex_rows scale lines.entry.past count lines.entry.left) }
    ensures base { IfOk result (λ nodes. nodes.base ≤ 1) }
    ensures count { IfOk result (λ nodes. length nodes.points.items ≡ count) }
    ensures in_range { IfOk result (λ nodes. All IsInRange nodes.points.items) }
{
    let mut base = 0;
    let mut points = Vec::new(alloc);
    let mut fits = true;
    for place in 0..count {
        let mut words = needed_row::<TriErr>(&mut lines)?;
        let Some(number) = words.next() else {
            unreachable!()
        };
        base = base_at(place, base, number);
        let at = vertex(number, words, base + place, scale)?;
        fits = keep(&mut points, fits, at);
    }
    end_text::<TriErr>(&mut lines)?;
    if !fits {
        return Err(TriErr::Memory);
    }
    Ok(Nodes {
        base: base as u32,
        points,
    })
}

/// Reads a `.node` file of Shewchuk's Triangle, and multiplies each coordinate by `scale`.
///
/// The first line with words is the heading, which begins with the number of vertices, at most
/// 1,048,576, and the dimension, 2. Then a line for each vertex begins with its number and its two
/// coordinates, which are whole numbers of a magnitude of at most 268,435,456 once they are scaled. What
/// follows on these lines is passed over. The first vertex has the number 0 or 1, each later one the next
/// number. With no vertices the base is 0.
///
/// An error names the first fault of the file: lines are tested in order, on a line want of words comes
/// first, and then each word has all its tests before the next one is looked at. `TriErr::Memory` comes
/// only of a file without a fault: where memory runs out, the lines that are left are still tested.
/// Memory is taken as vertices are read, and not by what the heading says.
#[tactic(auto, unfolding(crate::specs::Node::node_read))]
pub fn read_node(alloc: Global, bytes: &[u8], scale: u32) -> Result<Nodes, TriErr>
    requires size { length bytes.now ≤ 268435456 }
    requires scale_low { 1 ≤ scale }
    requires scale_high { scale ≤ 1048576 }

    // The value of the grammar, or its first fault.
    ensures gives { Gives vertices_of result (node_read scale bytes.now) }

    // A file with a fault is answered by its first one, whatever memory there is.
    ensures refused { IfErr (node_read scale bytes.now) (λ fault. result ≡ Err fault) }

    // What callers need of the value.
    ensures base { IfOk result (λ nodes. nodes.base ≤ 1) }
    ensures count { IfOk result (λ nodes. length nodes.points.items ≤ 1048576) }
    ensures in_range { IfOk result (λ nodes. All IsInRange nodes.points.items) }
{
    let mut lines = Lines::new(bytes);
    let count = heading(needed_row::<TriErr>(&mut lines)?)?;
    vertices(alloc, lines, count, scale)
}
