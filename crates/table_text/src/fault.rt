//! Why a table is refused.
ghost use Rattle.std.specs.Prelude.{◌≡◌};
ghost use Rattle.table_text.specs.declared.fault.TableErr.TheVariants.{Word, Short, Extra};

use row_text::RowFault;
use thiserror::Error;

/// Why a partition or a size table is refused. Lines and columns count from 1, columns in bytes.
#[derive(Clone, Copy, Debug, PartialEq, Eq, Error)]
pub enum TableErr {
    /// The line has too few words, or the file ends before a line that is needed; `line` is then the
    /// number of the line after the last.
    #[error("line {line}: too few words")]
    Short { line: u32 },
    /// The word that begins at this place isn't in the form that is asked for, or no word may stand
    /// there.
    #[error("line {line} column {column}: word refused")]
    Word { line: u32, column: u32 },
    /// The line names a chunk above 63.
    #[error("line {line}: chunk {found} above 63")]
    Chunk { line: u32, found: u64 },
    /// The line's numbers are no band: a corner or a squared length is out of range or the lower one
    /// is above the upper one, or the row is the 1,024th.
    #[error("line {line}: band refused")]
    Band { line: u32 },
    /// The size table ends before its default line.
    #[error("no default line")]
    NoDefault,
    /// A line with words stands below the last line that is needed.
    #[error("line {line}: line after the end")]
    Extra { line: u32 },
    /// Memory ran out, for a text without a fault.
    #[error("out of memory")]
    Memory,
}

impl RowFault for TableErr {
    ghost word_refused = { Word };

    ghost row_short = { Short };

    ghost line_extra = { Extra };

    fn word(line: u32, column: u32) -> TableErr {
        TableErr::Word { line, column }
    }

    fn short(line: u32) -> TableErr {
        TableErr::Short { line }
    }

    fn extra(line: u32) -> TableErr {
        TableErr::Extra { line }
    }
}
