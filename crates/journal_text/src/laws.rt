//! Laws of the format, each as the contract of a function that does no work.
ghost use Rattle.journal_text.specs.Laws.{JournalReadsAgain};

/// A law, and no work: what is written of a journal in normal form is read again.
pub fn journal_reads_again()
    ensures { JournalReadsAgain }
{}
