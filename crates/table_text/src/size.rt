//! The size table: bands of squared lengths over rectangles, the default last.
ghost use Rattle.std.specs.Prelude.{◌≡◌, ◌≢◌, ◌≤◌, ◌<◌, ◌∷◌, length, Ok, Err, true, OnOk, IfOk, IfErr, vec_len};
ghost use Rattle.pf_lex.specs.Token.{word_of};
ghost use Rattle.pf_model.specs.Conforming.{HasDefault};
ghost use Rattle.row_text.specs.Rows.{Reads};
ghost use Rattle.table_text.specs.Size.{is_coordinate, is_corner, is_rectangle, is_length_range, whole_at, natural_at, corner_at, rectangle_at, length_range_at, row_on, default_on, bands_on, size_of};
ghost use Rattle.table_text.specs.Kept.{HoldsAll, kept_in, is_length, both, corner_with, rectangle_with, are_corners_ordered, band_kept};
ghost use Rattle.table_text.specs.RowWords.{row_words};

use crate::fault::TableErr;
use pf_geom::Point;
use pf_lex::{Lines, NumFault, Token, Words, natural, whole};
use pf_model::Band;
use row_text::{end_line, end_text, is_word, keep, refused};
use std::alloc::Global;

/// The greatest magnitude of a corner's coordinate.
const CORNER_LIMIT: i64 = 268_435_456;

/// The greatest squared length.
const LENGTH_LIMIT: u64 = 1_152_921_504_606_846_976;

/// The number of rows that may stand above the default line.
const ROWS_LIMIT: u32 = 1023;

// The rectangle of the default band.
const EVERYWHERE: Rectangle = Rectangle {
    low: Point {
        x: -268_435_456,
        y: -268_435_456,
    },
    high: Point {
        x: 268_435_456,
        y: 268_435_456,
    },
};

/// Reads a size table: at most 1,023 rows `xlo ylo xhi yhi min2 max2` and then the line
/// `default min2 max2`, whose band holds every point. Rectangles are in the units of the mesh's
/// coordinates, lengths are squared. `TableErr::Memory` comes only of a text without a fault, as for
/// [`read_part`](crate::read_part).
pub fn read_size(alloc: Global, bytes: &[u8]) -> Result<Vec<Band>, TableErr>
    requires { length bytes.now ≤ 268435456 }
    ensures value { IfOk result (λ bands. size_of bytes.now ≡ Ok bands.items) }
    ensures first_fault { IfErr result (λ fault. fault ≢ TableErr.Memory → size_of bytes.now ≡ Err fault) }

    // A text with a fault is answered by its first one, whatever memory there is.
    ensures refused { IfErr (size_of bytes.now) (λ fault. result ≡ Err fault) }

    ensures default_last { IfOk result (λ bands. HasDefault bands.items) }
    ensures rows { IfOk result (λ bands. vec_len bands ≤ 1024) }
{
    bands(alloc, Lines::new(bytes))
}

// The bands of the rows, and of the default line, which is the last.
fn bands(alloc: Global, mut lines: Lines<'_>) -> Result<Vec<Band>, TableErr>
    ensures reads { Reads TableErr.Memory (λ bands. bands.items) result (bands_on 0 lines.entry.left) }
    ensures default_last { IfOk result (λ bands. HasDefault bands.items) }
    ensures rows { IfOk result (λ bands. vec_len bands ≤ 1024) }
{
    let mut bands = Vec::new(alloc);
    let mut above: u32 = 0;
    let mut fits = true;
    while let Some(mut words) = lines.next_line() {
        let Some(first) = words.next() else {
            unreachable!()
        };
        if is_word(first, b"default") {
            let band = default_line(first, words)?;
            end_text::<TableErr>(&mut lines)?;
            if !keep(&mut bands, fits, band) {
                return Err(TableErr::Memory);
            }
            return Ok(bands);
        }
        let band = row(first, words, above)?;
        fits = keep(&mut bands, fits, band);
        above += 1;
    }
    Err(TableErr::NoDefault)
}

// The rectangle of a row, by its lower left and its upper right corner.
#[derive(Clone, Copy)]
struct Rectangle {
    low: Point,
    high: Point,
}

// The least and the greatest squared length of a row.
#[derive(Clone, Copy)]
struct LengthRange {
    min2: i64,
    max2: i64,
}

// The words of a row.
#[derive(Clone, Copy)]
struct RowWords<'a> {
    xlo: Token<'a>,
    ylo: Token<'a>,
    xhi: Token<'a>,
    yhi: Token<'a>,
    min2: Token<'a>,
    max2: Token<'a>,
}

// The band of a row whose first word is given, below so many others.
#[tactic(auto, unfolding(crate::specs::Size::row_on))]
fn row(xlo: Token<'_>, mut words: Words<'_>, above: u32) -> Result<Band, TableErr>
    ensures value { result ≡ row_on above xlo.entry.line (word_of xlo.entry ∷ words.entry.words) }
    ensures room { OnOk result (above < 1023) }
{
    let line = xlo.line;
    let short = TableErr::Short { line };
    let ylo = words.next().ok_or(short)?;
    let xhi = words.next().ok_or(short)?;
    let yhi = words.next().ok_or(short)?;
    let min2 = words.next().ok_or(short)?;
    let max2 = words.next().ok_or(short)?;
    let row = RowWords {
        xlo,
        ylo,
        xhi,
        yhi,
        min2,
        max2,
    };
    row_of(line, row, words, above)
}

// The band of a row with these words and whatever is left on its line, below so many others.
#[tactic(auto, unfolding(crate::specs::Size::row_on))]
fn row_of(line: u32, row: RowWords<'_>, others: Words<'_>, above: u32) -> Result<Band, TableErr>
    ensures value { result ≡ row_on above line (row_words row.entry others.entry.words) }
    ensures room { OnOk result (above < 1023) }
{
    let rectangle = rectangle_of(line, row)?;
    let lengths = length_range_of(line, row.min2, row.max2)?;
    end_line::<TableErr>(line, others)?;
    band(line, rectangle, lengths, above < ROWS_LIMIT)
}

// The band of the default line, whose first word is given.
#[tactic(auto, unfolding(crate::specs::Size::default_on))]
fn default_line(name: Token<'_>, mut words: Words<'_>) -> Result<Band, TableErr>
    ensures value { result ≡ default_on name.entry.line (word_of name.entry ∷ words.entry.words) }
    ensures everywhere { IfOk result HoldsAll }
{
    let line = name.line;
    let short = TableErr::Short { line };
    let min2 = words.next().ok_or(short)?;
    let max2 = words.next().ok_or(short)?;
    let lengths = length_range_of(line, min2, max2)?;
    end_line::<TableErr>(line, words)?;
    band(line, Some(EVERYWHERE), lengths, true)
}

// The band of a line whose rectangle and squared lengths were kept, where the line may stand there.
fn band(
    line: u32,
    rectangle: Option<Rectangle>,
    lengths: Option<LengthRange>,
    may_stand: bool,
) -> Result<Band, TableErr>
    ensures { result ≡ band_kept may_stand line rectangle lengths }
{
    match (rectangle, lengths) {
        (Some(Rectangle { low, high }), Some(LengthRange { min2, max2 })) if may_stand => Ok(
            Band {
                xlo: low.x,
                ylo: low.y,
                xhi: high.x,
                yhi: high.y,
                min2,
                max2,
            },
        ),
        _ => Err(TableErr::Band { line }),
    }
}

// The rectangle that a row says, where its corners are in range and in order.
fn rectangle_of(line: u32, row: RowWords<'_>) -> Result<Option<Rectangle>, TableErr>
    ensures { result ≡ kept_in is_rectangle (rectangle_at line (word_of row.entry.xlo) (word_of row.entry.ylo) (word_of row.entry.xhi) (word_of row.entry.yhi)) }
{
    let low = corner(line, row.xlo, row.ylo)?;
    let high = corner(line, row.xhi, row.yhi)?;
    Ok(ordered_corners(low, high))
}

// The rectangle with these corners, where they were kept and are in order.
fn ordered_corners(low: Option<Point>, high: Option<Point>) -> Option<Rectangle>
    ensures { result ≡ both are_corners_ordered rectangle_with low high }
{
    match (low, high) {
        (Some(low), Some(high)) if low.x <= high.x && low.y <= high.y => {
            Some(Rectangle { low, high })
        }
        _ => None,
    }
}

// The corner that two words say, where it is in range.
fn corner(line: u32, x: Token<'_>, y: Token<'_>) -> Result<Option<Point>, TableErr>
    ensures { result ≡ kept_in is_corner (corner_at line (word_of x.entry) (word_of y.entry)) }
{
    let x = coordinate(line, x)?;
    let y = coordinate(line, y)?;
    Ok(corner_of(x, y))
}

// The corner with these coordinates, where they were kept.
fn corner_of(x: Option<i32>, y: Option<i32>) -> Option<Point>
    ensures { result ≡ both (λ _. true) corner_with x y }
{
    Some(Point { x: x?, y: y? })
}

// The squared lengths that two words say, where they are in range and in order.
fn length_range_of(
    line: u32,
    min2: Token<'_>,
    max2: Token<'_>,
) -> Result<Option<LengthRange>, TableErr>
    ensures { result ≡ kept_in is_length_range (length_range_at line (word_of min2.entry) (word_of max2.entry)) }
{
    let min2 = squared_length(line, min2)?;
    let max2 = squared_length(line, max2)?;
    match (min2, max2) {
        (Some(min2), Some(max2)) if min2 <= max2 => Ok(Some(LengthRange { min2, max2 })),
        _ => Ok(None),
    }
}

// The coordinate that a whole word says, where it is in range.
#[tactic(auto, unfolding(pf_lex::specs::Number::whole_of))]
fn coordinate(line: u32, word: Token<'_>) -> Result<Option<i32>, TableErr>
    ensures { result ≡ kept_in is_coordinate (whole_at line (word_of word.entry)) }
{
    match whole(word) {
        Ok(z) if -CORNER_LIMIT <= z && z <= CORNER_LIMIT => Ok(Some(z as i32)),
        Ok(_) | Err(NumFault::TooLarge) => Ok(None),
        Err(NumFault::NotWhole) => Err(refused(line, word)),
    }
}

// The squared length that a natural word says, where it is in range.
#[tactic(auto, unfolding(pf_lex::specs::Number::natural_of))]
fn squared_length(line: u32, word: Token<'_>) -> Result<Option<i64>, TableErr>
    ensures { result ≡ kept_in is_length (natural_at line (word_of word.entry)) }
{
    match natural(word) {
        Ok(n) if n <= LENGTH_LIMIT => Ok(Some(n as i64)),
        Ok(_) | Err(NumFault::TooLarge) => Ok(None),
        Err(NumFault::NotWhole) => Err(refused(line, word)),
    }
}
