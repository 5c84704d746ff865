//! The faults that any file of rows may have.
ghost use Rattle.std.specs.Prelude.{◌≡◌, ℕ};

/// A fault type with the faults that any file of rows may have, each at its place. Lines and columns
/// count from 1, and columns count bytes.
pub trait RowFault {
    /// The word that begins at a line and a column is refused.
    ghost word_refused: { ℕ → ℕ → Self };
    /// A line has too few words, or the text ends before it.
    ghost row_short: { ℕ → Self };
    /// A line with words follows the last one.
    ghost line_extra: { ℕ → Self };

    /// The fault of the word that begins at this line and this column.
    fn word(line: u32, column: u32) -> Self
        ensures { result ≡ word_refused line column };

    /// The fault of this line, which has too few words or isn't there.
    fn short(line: u32) -> Self
        ensures { result ≡ row_short line };

    /// The fault of this line, which stands below the last one.
    fn extra(line: u32) -> Self
        ensures { result ≡ line_extra line };
}
