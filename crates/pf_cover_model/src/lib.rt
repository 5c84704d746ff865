//! Cover and topology: crossing numbers of a mesh's boundary, and what each operation keeps of them and
//! of the Euler number.
//!
//! The definitions stand in `specs/`. The functions here do no work: each carries, as its contract, a law
//! of the definitions that the crates above rest on.
#![tactic(auto)]

ghost use Rattle.pf_cover_model.specs.Laws.{CoverIsCrossings, JournalKeepsCover, JournalKeepsCrossings, JournalKeepsEuler, JournalKeepsOneFan, OperationKeepsCover, OperationKeepsCrossings, OperationKeepsEuler, OperationKeepsOneFan, TriangleIsCrossedInside};

/// A law, and no work: the signed crossings of the edges of a triangle that turns left add up to 1 about
/// a point strictly inside, and to 0 about any other on none of its edges.
pub fn triangle_is_crossed_inside()
    ensures { TriangleIsCrossedInside }
{}

/// A law, and no work: how many triangles of a conforming mesh cover a point on no edge is the crossing
/// number of the boundary about it.
pub fn cover_is_crossings()
    ensures { CoverIsCrossings }
{}

/// A law, and no work: an operation that passes on a conforming mesh, whose live names are below the
/// new one of its ticket, keeps the crossing number of the boundary about every point.
pub fn operation_keeps_crossings()
    ensures { OperationKeepsCrossings }
{}

/// A law, and no work: such an operation keeps the cover of every point that is on no edge before it and
/// on none after it.
pub fn operation_keeps_cover()
    ensures { OperationKeepsCover }
{}

/// A law, and no work: the replay of a legal journal on a conforming mesh, whose live names are below
/// the first new one, keeps the crossing number of the boundary about every point.
pub fn journal_keeps_crossings()
    ensures { JournalKeepsCrossings }
{}

/// A law, and no work: such a replay keeps the cover of every point that is on no edge of the first mesh
/// and on none of the last.
pub fn journal_keeps_cover()
    ensures { JournalKeepsCover }
{}

/// A law, and no work: an operation that passes on a conforming mesh, whose live names are below the
/// new one of its ticket, keeps the Euler number.
pub fn operation_keeps_euler()
    ensures { OperationKeepsEuler }
{}

/// A law, and no work: the replay of a legal journal on a conforming mesh, whose live names are below
/// the first new one, has its Euler number.
pub fn journal_keeps_euler()
    ensures { JournalKeepsEuler }
{}

/// A law, and no work: such an operation leaves one fan at each node that is live after it and had one
/// fan, or wasn't live, before it.
pub fn operation_keeps_one_fan()
    ensures { OperationKeepsOneFan }
{}

/// A law, and no work: the replay of a legal journal leaves one fan at each node that is live after it and
/// had one fan, or wasn't live, before it.
pub fn journal_keeps_one_fan()
    ensures { JournalKeepsOneFan }
{}
