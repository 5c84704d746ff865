//! Laws of the definitions, each as the contract of a function that does no work.
ghost use Rattle.pf_board_steps.specs.Laws.{BirthIsStep, BoardCloses, BoardOpens, BurialIsStep, CommitIsStep, JoinIsStep, MadeIsPatch, NoteIsStep, RefusalIsStep, ReleaseIsStep, SeenIsJudged, SplitIsStep, TryIsStep};

/// A law, and no work: a try for a node's word is a step of the board.
pub fn try_is_step()
    ensures { TryIsStep }
{}

/// A law, and no work: a load of the ticket count is one, at which a mark is made.
pub fn note_is_step()
    ensures { NoteIsStep }
{}

/// A law, and no work: and at which an operation is refused that fails, as the view tells.
pub fn refusal_is_step()
    ensures { RefusalIsStep }
{}

/// A law, and no work: adding one to the ticket count is a step, which makes an operation.
pub fn commit_is_step()
    ensures { CommitIsStep }
{}

/// A law, and no work: writing a seat's number into the word of its unborn node is a step.
pub fn birth_is_step()
    ensures { BirthIsStep }
{}

/// A law, and no work: freeing the word of a live node is a step, with its due copies.
pub fn release_is_step()
    ensures { ReleaseIsStep }
{}

/// A law, and no work: so is writing into the word of a node without a star that it is dead.
pub fn burial_is_step()
    ensures { BurialIsStep }
{}

/// A law, and no work: a seat that holds nothing can be split.
pub fn split_is_step()
    ensures { SplitIsStep }
{}

/// A law, and no work: a seat that holds nothing can be joined to another.
pub fn join_is_step()
    ensures { JoinIsStep }
{}

/// A law, and no work: a board with the words and the copies of a mesh is sound.
pub fn board_opens()
    ensures { BoardOpens }
{}

/// A law, and no work: the copies of a board at its end are those of the mesh after the one history.
pub fn board_closes()
    ensures { BoardCloses }
{}

/// A law, and no work: what is judged on the held stars is so on each mesh that the seat's view may be of.
pub fn seen_is_judged()
    ensures { SeenIsJudged }
{}

/// A law, and no work: an operation that passes on the held stars, and whose cavity is held, can be committed.
pub fn made_is_patch()
    ensures { MadeIsPatch }
{}
