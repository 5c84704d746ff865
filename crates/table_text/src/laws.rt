//! Laws of the formats, each as the contract of a function that does no work.
ghost use Rattle.table_text.specs.Laws.{PartReadsAgain};

/// A law, and no work: what is written of triangles whose owners are at most 63 is read again.
pub fn part_reads_again()
    ensures { PartReadsAgain }
{}
