//! Laws of the definitions, each as the contract of a function that does no work.

ghost use Rattle.pf_model.specs.Laws.{AreaIsBoundarySum, BuiltIsConforming, BuiltIsFresh, ContractionMeetsLinkCondition, EdgeSumIsBoundarySum, JournalKeepsArea, JournalKeepsConforming, LegalIsUnrefused, NamesStayFresh, OneFanIsCycleOrPath, OperationKeepsArea, OperationKeepsConforming, PrefixIsLegal, WalkEndsAtTerminalEdge};

/// A law, and no work: the mesh that is built of points in range, where no fault is found, is
/// conforming.
pub fn built_is_conforming()
    ensures { BuiltIsConforming }
{}

/// A law, and no work: the live names of a mesh that is built are below the first new one.
pub fn built_is_fresh()
    ensures { BuiltIsFresh }
{}

/// A law, and no work: a number for each directed edge that changes its sign with the edge's direction
/// has the same sum over the edges of all triangles as over the boundary edges.
pub fn edge_sum_is_boundary_sum()
    ensures { EdgeSumIsBoundarySum }
{}

/// A law, and no work: twice the area of a conforming mesh is the sum of the cross products of its
/// boundary edges.
pub fn area_is_boundary_sum()
    ensures { AreaIsBoundarySum }
{}

/// A law, and no work: an operation that passes on a conforming mesh, whose live names are below the
/// new one of its ticket, leaves a conforming mesh.
pub fn operation_keeps_conforming()
    ensures { OperationKeepsConforming }
{}

/// A law, and no work: an operation that passes on a conforming mesh, whose live names are below the
/// new one of its ticket, leaves its area as it was.
pub fn operation_keeps_area()
    ensures { OperationKeepsArea }
{}

/// A law, and no work: the replay of a legal journal on a conforming mesh, whose live names are below
/// the first new one, is a conforming mesh.
pub fn journal_keeps_conforming()
    ensures { JournalKeepsConforming }
{}

/// A law, and no work: the replay of a legal journal on a conforming mesh, whose live names are below
/// the first new one, has its area.
pub fn journal_keeps_area()
    ensures { JournalKeepsArea }
{}

/// A law, and no work: a journal whose tickets count up from 0 is legal where no entry of it is refused;
/// and where it is legal, on a conforming mesh whose live names are below the first new one, none is.
pub fn legal_is_unrefused()
    ensures { LegalIsUnrefused }
{}

/// A law, and no work: the live names of the replay of entries whose tickets count up from 0 are below
/// the next new one, where those of the mesh are below the first one.
pub fn names_stay_fresh()
    ensures { NamesStayFresh }
{}

/// A law, and no work: the first entries of a legal journal are a legal one.
pub fn prefix_is_legal()
    ensures { PrefixIsLegal }
{}

/// A law, and no work: a contraction that passes on a conforming mesh meets the link condition.
pub fn contraction_meets_link_condition()
    ensures { ContractionMeetsLinkCondition }
{}

/// A law, and no work: the walk to longer edges, from any edge of any mesh, ends at a terminal edge: one
/// of the mesh that is the longest in each triangle at it.
pub fn walk_ends_at_terminal_edge()
    ensures { WalkEndsAtTerminalEdge }
{}

/// A law, and no work: the test of one fan passes on the spokes of a node of a conforming mesh exactly
/// where they are one cycle or one path.
pub fn one_fan_is_cycle_or_path()
    ensures { OneFanIsCycleOrPath }
{}
