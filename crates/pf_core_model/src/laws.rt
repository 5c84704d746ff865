//! Laws of the definitions, each as the contract of a function that does no work.

ghost use Rattle.pf_core_model.specs.Laws.{BirthKeepsSound, BuryKeepsSound, CommitKeepsSound, FindKeepsSound, HistoryIsOfViews, JoinKeepsSound, LockKeepsSound, LostKeepsSound, NeverKeepsSound, NoteKeepsSound, RefusalKeepsSound, ReleaseKeepsSound, SplitKeepsSound};
ghost use Rattle.pf_core_model.specs.Guards.{AloneKnowsHistory, AloneShowsCopies, HeldPairsAgree, JudgedKeepsSound, MadeKeepsSound, NeighbourIsNear, OthersHold};
ghost use Rattle.pf_core_model.specs.Lives.{GoneStaysGone, LaterWasNever, LiveIsBelow};
ghost use Rattle.pf_core_model.specs.Right.{AnswersAreRight, FactsLast, GainsAreTrue, MarksAgree, TruthIsRight};
ghost use Rattle.pf_core_model.specs.Seats.{AloneHoldsLive, FirstKnows, HolderIsNumber, JoinKnows, SeatKnows, SplitKnows, TicketIsNew};
ghost use Rattle.pf_core_model.specs.Sharers.{SharersAreDue};
ghost use Rattle.pf_core_model.specs.Shown.{EventsShowOneMesh, FreePartIsOfMesh, OpensSound, OpensWithHomes, SoundShowsOneMesh, StepGrowsHistory, StepKeepsSound};
ghost use Rattle.pf_core_model.specs.Needs.{KeepsOutside};
ghost use Rattle.pf_core_model.specs.Slots.{DueListIsSharers, OwedIsLacking, PaidIsShared, SharersAreListed};
ghost use Rattle.pf_core_model.specs.Closing.{ClosesWithCopies};

/// A law, and no work: a free node can be held.
pub fn lock_keeps_sound()
    ensures { LockKeepsSound }
{}

/// A law, and no work: a try may find its node held by another.
pub fn lost_keeps_sound()
    ensures { LostKeepsSound }
{}

/// A law, and no work: a try may find its node dead.
pub fn find_keeps_sound()
    ensures { FindKeepsSound }
{}

/// A law, and no work: a try may find that its node was never live.
pub fn never_keeps_sound()
    ensures { NeverKeepsSound }
{}

/// A law, and no work: the ticket count can be noted, with a mark.
pub fn note_keeps_sound()
    ensures { NoteKeepsSound }
{}

/// A law, and no work: an operation that fails can be refused.
pub fn refusal_keeps_sound()
    ensures { RefusalKeepsSound }
{}

/// A law, and no work: a live node can be put back with its due copies.
pub fn release_keeps_sound()
    ensures { ReleaseKeepsSound }
{}

/// A law, and no work: a node that isn't live can be put back without a copy.
pub fn bury_keeps_sound()
    ensures { BuryKeepsSound }
{}

/// A law, and no work: an unborn node can be held as any other.
pub fn birth_keeps_sound()
    ensures { BirthKeepsSound }
{}

/// A law, and no work: a spare number can become an actor.
pub fn split_keeps_sound()
    ensures { SplitKeepsSound }
{}

/// A law, and no work: an actor that holds nothing can be joined to another.
pub fn join_keeps_sound()
    ensures { JoinKeepsSound }
{}

/// A law, and no work: an operation that passes, and whose cavity is held, can be made.
pub fn commit_keeps_sound()
    ensures { CommitKeepsSound }
{}

/// A law, and no work: the history is the entries of all views by ticket.
pub fn history_is_of_views()
    ensures { HistoryIsOfViews }
{}

/// A law, and no work: the state at the start is sound.
pub fn opens_sound()
    ensures { OpensSound }
{}

/// A law, and no work: each event keeps a state of the pure core sound.
pub fn step_keeps_sound()
    ensures { StepKeepsSound }
{}

/// A law, and no work: a sound state shows one mesh.
pub fn sound_shows_one_mesh()
    ensures { SoundShowsOneMesh }
{}

/// A law, and no work: after any list of events the copies of the free nodes are those of one mesh: the
/// history so far replayed on the opening mesh.
pub fn events_show_one_mesh()
    ensures { EventsShowOneMesh }
{}

/// A law, and no work: the free part of a sound state is the triangles of its mesh whose corners are all
/// free.
pub fn free_part_is_of_mesh()
    ensures { FreePartIsOfMesh }
{}

/// A law, and no work: the list of a node's copies gives each chunk the copy that it is due.
pub fn sharers_are_due()
    ensures { SharersAreDue }
{}

/// A law, and no work: what an actor holds agrees with the mesh after the history.
pub fn held_pairs_agree()
    ensures { HeldPairsAgree }
{}

/// A law, and no work: an operation that fails, as the view tells, can be refused.
pub fn judged_keeps_sound()
    ensures { JudgedKeepsSound }
{}

/// A law, and no work: an operation that passes, as the view tells, can be made.
pub fn made_keeps_sound()
    ensures { MadeKeepsSound }
{}

/// A law, and no work: the word of a node that an actor doesn't hold names another, if any; and none where
/// the actor is alone.
pub fn others_hold()
    ensures { OthersHold }
{}

/// A law, and no work: a neighbour in a held star is free or held.
pub fn neighbour_is_near()
    ensures { NeighbourIsNear }
{}

/// A law, and no work: an actor that is alone knows the whole history.
pub fn alone_knows_all()
    ensures { AloneKnowsHistory }
{}

/// A law, and no work: each event leaves the history, or adds to its end.
pub fn step_grows_history()
    ensures { StepGrowsHistory }
{}

/// A law, and no work: where an actor is alone and holds nothing, all copies are at home, and they are
/// those of the mesh after the history.
pub fn alone_shows_copies()
    ensures { AloneShowsCopies }
{}

/// A law, and no work: the words at the start are sound with any homes that have the copies of the mesh.
pub fn opens_with_homes()
    ensures { OpensWithHomes }
{}

/// A law, and no work: what an actor knows by its own view.
pub fn seat_knows()
    ensures { SeatKnows }
{}

/// A law, and no work: what the first actor knows at the start.
pub fn first_knows()
    ensures { FirstKnows }
{}

/// A law, and no work: what an actor knows of a mesh, both know after a split.
pub fn split_knows()
    ensures { SplitKnows }
{}

/// A law, and no work: an actor to which another was joined knows of a mesh what it knew.
pub fn join_knows()
    ensures { JoinKnows }
{}

/// A law, and no work: the next ticket names a node that isn't live.
pub fn ticket_is_new()
    ensures { TicketIsNew }
{}

/// A law, and no work: the word of a node that is held names an actor.
pub fn holder_is_number()
    ensures { HolderIsNumber }
{}

/// A law, and no work: to an actor that is alone, a name that it doesn't hold is free exactly where it is
/// live.
pub fn alone_holds_live()
    ensures { AloneHoldsLive }
{}

/// A law, and no work: a true mark agrees with the replay of the history up to it.
pub fn marks_agree()
    ensures { MarksAgree }
{}

/// A law, and no work: what is true of a history stays so while it grows.
pub fn facts_last()
    ensures { FactsLast }
{}

/// A law, and no work: an answer is right where all that its caller came to know is true.
pub fn truth_is_right()
    ensures { TruthIsRight }
{}

/// A law, and no work: what the actors of a sound state came to know is true.
pub fn gains_are_true()
    ensures { GainsAreTrue }
{}

/// A law, and no work: an answer is right of the one history, where its caller has what it came to know.
pub fn answers_are_right()
    ensures { AnswersAreRight }
{}

/// A law, and no work: live names are below the next new one.
pub fn live_is_below()
    ensures { LiveIsBelow }
{}

/// A law, and no work: a name that is due later was live in no mesh so far.
pub fn later_was_never()
    ensures { LaterWasNever }
{}

/// A law, and no work: a node that isn't live any more is live in no mesh to come.
pub fn gone_stays_gone()
    ensures { GoneStaysGone }
{}

/// A law, and no work: a pair is owed where the list of a held node has not the due copy.
pub fn owed_is_lacking()
    ensures { OwedIsLacking }
{}

/// A law, and no work: the copies of a star are listed by rising chunk.
pub fn sharers_are_listed()
    ensures { SharersAreListed }
{}

/// A law, and no work: a list by rising chunk with the due copy at each is that of the star.
pub fn due_list_is_sharers()
    ensures { DueListIsSharers }
{}

/// A law, and no work: the list of a held node of which nothing is owed is that of its star.
pub fn paid_is_shared()
    ensures { PaidIsShared }
{}

/// A law, and no work: an operation that passes leaves the stars outside its cavity.
pub fn keeps_outside()
    ensures { KeepsOutside }
{}

/// A law, and no work: a rising list of exactly the copies of all names is that of the mesh.
pub fn closes_with_copies()
    ensures { ClosesWithCopies }
{}
