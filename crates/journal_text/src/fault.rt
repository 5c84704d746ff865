//! Why a journal is refused.
ghost use Rattle.std.specs.Prelude.{◌≡◌};
ghost use Rattle.journal_text.specs.declared.fault.JourErr.TheVariants.{Word, Short, Extra};

use row_text::RowFault;
use thiserror::Error;

/// Why a journal is refused. Lines and columns count from 1, columns in bytes.
#[derive(Clone, Copy, Debug, PartialEq, Eq, Error)]
pub enum JourErr {
    /// The first line with words isn't `parfum journal 1`, or there is none.
    #[error("heading refused")]
    Head,
    /// The line has too few words, or the file ends before its `end` line; `line` is then the number
    /// of the line after the last.
    #[error("line {line}: too few words")]
    Short {
        line: u32,
    },
    /// The word that begins at this place isn't in the form that is asked for, or no word may stand
    /// there.
    #[error("line {line} column {column}: word refused")]
    Word {
        line: u32,
        column: u32,
    },
    /// A ticket isn't the number of entries above it, or the count of the `end` line isn't.
    #[error("line {line}: ticket {found} instead of {expected}")]
    Ticket {
        line: u32,
        expected: u32,
        found: u32,
    },
    /// A line with words stands below the `end` line.
    #[error("line {line}: line after the end")]
    Extra {
        line: u32,
    },
    /// Memory ran out, for a text without a fault.
    #[error("out of memory")]
    Memory,
}

impl RowFault for JourErr {
    ghost word_refused = { Word };

    ghost row_short = { Short };

    ghost line_extra = { Extra };

    fn word(line: u32, column: u32) -> JourErr {
        JourErr::Word { line, column }
    }

    fn short(line: u32) -> JourErr {
        JourErr::Short { line }
    }

    fn extra(line: u32) -> JourErr {
        JourErr::Extra { line }
    }
}
