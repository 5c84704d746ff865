//! Why a file is refused.
ghost use Rattle.std.specs.Prelude.{◌≡◌};
ghost use Rattle.tri_text.specs.declared.fault.TriErr.TheVariants.{Word, Short, Extra};

use row_text::RowFault;
use thiserror::Error;

/// The first fault of a `.node` or `.ele` file, or want of memory. Lines and columns count from 1, and
/// columns count bytes.
#[derive(Clone, Copy, Debug, PartialEq, Eq, Error)]
pub enum TriErr {
    /// The line has too few words, or the file ends before it.
    #[error("line {line}: too few words")]
    Short {
        line: u32,
    },
    /// The word that begins there isn't in the form of its number: digits alone, or for a coordinate a
    /// whole number, as `-4` or `2.0`.
    #[error("line {line} column {column}: word refused")]
    Word {
        line: u32,
        column: u32,
    },
    /// The heading of a `.node` file says another dimension than 2.
    #[error("dimension {found}")]
    Dimension {
        found: u64,
    },
    /// The heading of an `.ele` file says another number of nodes per triangle than 3.
    #[error("nodes per triangle {found}")]
    Order {
        found: u64,
    },
    /// The line's number isn't the one that is due: the first vertex's is 0 or 1 (then 0 is said to be
    /// due), and each later one is the next.
    #[error("line {line}: number {found} instead of {expected}")]
    Number {
        line: u32,
        expected: u64,
        found: u64,
    },
    /// A number of the line is above 2^62, a scaled coordinate has a magnitude above 268,435,456 (2^28),
    /// or a corner is no vertex.
    #[error("line {line}: out of range")]
    Range {
        line: u32,
    },
    /// The heading says more than 1,048,576 vertices, or more than 2,097,152 triangles.
    #[error("count {count} is too great")]
    TooMany {
        count: u64,
    },
    /// A line follows the last vertex or triangle.
    #[error("line {line}: line after the end")]
    Extra {
        line: u32,
    },
    /// Memory ran out, for a file without a fault.
    #[error("out of memory")]
    Memory,
}

impl RowFault for TriErr {
    ghost word_refused = { Word };

    ghost row_short = { Short };

    ghost line_extra = { Extra };

    fn word(line: u32, column: u32) -> TriErr {
        TriErr::Word { line, column }
    }

    fn short(line: u32) -> TriErr {
        TriErr::Short { line }
    }

    fn extra(line: u32) -> TriErr {
        TriErr::Extra { line }
    }
}
