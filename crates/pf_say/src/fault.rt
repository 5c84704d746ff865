// The faults of files that are read, and what is said of them.
ghost use Rattle.std.specs.Prelude.{◌≡◌, ◌++◌, OnOk, codes, decimal};
ghost use Rattle.pf_say.specs.Faults.{line_fault_text, fault_text, instead};

use crate::line::{put, put_words};
use std::alloc::AllocError;

/// The first fault of a file that is read.
#[derive(Clone, Copy, Debug, PartialEq, Eq)]
pub enum Fault {
    /// A line has it.
    Line { line: u32, fault: LineFault },
    /// The file is longer than a file may be.
    TooLong,
    /// The heading says so many rows, more than `most`.
    TooMany { count: u64, most: u32 },
    /// The heading names this dimension.
    Dimension { found: u64 },
    /// The heading names so many nodes per triangle.
    Order { found: u64 },
    /// The journal doesn't begin with its heading.
    Head,
    /// The size table ends before its default line.
    NoDefault,
    /// A corner of the triangle is no node.
    NoNode { tri: u32, node: u32 },
    /// The corners of the triangle lie on one line.
    Flat { tri: u32 },
    /// The directed edge stands in two triangles.
    EdgeTwice { a: u32, b: u32 },
}

/// The fault of a line.
#[derive(Clone, Copy, Debug, PartialEq, Eq)]
pub enum LineFault {
    /// It has too few words, or the file ends before it.
    Short,
    /// The word at this column isn't in its form.
    Word { column: u32 },
    /// It has another number than the one that is due.
    Number { expected: u64, found: u64 },
    /// It has another ticket than the one that is due, or the end line another count.
    Ticket { expected: u32, found: u32 },
    /// A number is out of range.
    Range,
    /// The chunk is above 63.
    Chunk { found: u64 },
    /// The numbers make no band.
    Band,
    /// It follows the last line that is needed.
    Extra,
    /// It is a line of a trace, and in no form.
    Event,
}

/// Puts what is said of a fault behind the name of its file.
pub(crate) fn put_fault(text: &mut Vec<u8>, fault: Fault) -> Result<(), AllocError>
    ensures { OnOk result (text.new.items ≡ text.old.items ++ fault_text fault) }
{
    match fault {
        Fault::Line { line, fault } => {
            put(text, b" line ", u64::from(line), b"")?;
            put_line_fault(text, fault)
        }
        Fault::TooLong => put_words(text, b": longer than 268435456 bytes\n"),
        Fault::TooMany { count, most } => {
            put(text, b": count ", count, b"")?;
            put(text, b" above ", u64::from(most), b"\n")
        }
        Fault::Dimension { found } => put(text, b": dimension ", found, b"\n"),
        Fault::Order { found } => put(text, b": nodes per triangle ", found, b"\n"),
        Fault::Head => put_words(text, b": heading refused\n"),
        Fault::NoDefault => put_words(text, b": no default line\n"),
        Fault::NoNode { tri, node } => {
            put(text, b" triangle ", u64::from(tri), b"")?;
            put(text, b": no node ", u64::from(node), b"\n")
        }
        Fault::Flat { tri } => put(text, b" triangle ", u64::from(tri), b": flat\n"),
        Fault::EdgeTwice { a, b } => {
            put(text, b": edge ", u64::from(a), b"")?;
            put(text, b" ", u64::from(b), b" twice\n")
        }
    }
}

// Puts what is said of a line's fault, behind the number of the line.
fn put_line_fault(text: &mut Vec<u8>, fault: LineFault) -> Result<(), AllocError>
    ensures { OnOk result (text.new.items ≡ text.old.items ++ line_fault_text fault) }
{
    match fault {
        LineFault::Short => put_words(text, b": too few words\n"),
        LineFault::Word { column } => {
            put(text, b" column ", u64::from(column), b": word refused\n")
        }
        LineFault::Number { expected, found } => put_instead(text, b": number ", found, expected),
        LineFault::Ticket { expected, found } => {
            put_instead(text, b": ticket ", u64::from(found), u64::from(expected))
        }
        LineFault::Range => put_words(text, b": out of range\n"),
        LineFault::Chunk { found } => put(text, b": chunk ", found, b" above 63\n"),
        LineFault::Band => put_words(text, b": band refused\n"),
        LineFault::Extra => put_words(text, b": line after the end\n"),
        LineFault::Event => put_words(text, b": event refused\n"),
    }
}

// Puts the number that was found where another was due.
fn put_instead(text: &mut Vec<u8>, what: &[u8], found: u64, expected: u64) -> Result<(), AllocError>
    ensures { OnOk result (text.new.items ≡ text.old.items ++ (what.now ++ instead found expected)) }
{
    put(text, what, found, b" instead of ")?;
    put(text, b"", expected, b"\n")?;
    Ok(())
}
