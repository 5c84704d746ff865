//! Why a trace is refused.
use thiserror::Error;

/// Why a trace is refused. Lines count from 1.
#[derive(Clone, Copy, Debug, PartialEq, Eq, Error)]
pub enum TraceErr {
    /// This line is the first that is in no form. A text without words has its fault in line 1.
    #[error("line {line}: event refused")]
    Line { line: u32 },
    /// Memory ran out, for a text without a fault.
    #[error("out of memory")]
    Memory,
}
