//! Held stars: what they show of a mesh, and what can be judged, needed and made from them alone.
//!
//! The definitions stand in `specs/`. The functions here do no work: each carries, as its contract, a law
//! of the definitions that the crates above rest on.
#![tactic(auto)]

ghost use Rattle.pf_star_model.specs.Assembled.{CopiesGiveMesh};
ghost use Rattle.pf_star_model.specs.Laws.{CavityIsLive, CavityIsSeen, CavityIsSmall, ContractionHasFewNodes, CopiesAreShared, EndsAreJudged, JudgedIsFirstFailing, NeededIsLeastMissing, NeededIsLeastUnheld, NeededIsNear, NextIsLeastAbove, NormalHasCavity, NormalIsJudged, NormalIsPatched, OtherPairsAgree, OutsideStays, PatchIsRenamed, PatchIsWhole, PatchRises, PatchedIsNewStar, PatchedIsStar, PatchedPairsAgree, SharersAreChunks};

/// A law, and no work: what is judged from the stars of the ends, and of the left apex of a flip whose
/// other conditions pass, is the first condition that fails, on each conforming mesh with these stars,
/// and with these bands where the operation asks for bands.
pub fn judged_is_first_failing()
    ensures { JudgedIsFirstFailing }
{}

/// A law, and no work: the conditions of a flip but the last are judged from the stars of the ends alone.
pub fn ends_are_judged()
    ensures { EndsAreJudged }
{}

/// A law, and no work: the stars of the ends show the cavity, where each condition passes that is judged
/// from them.
pub fn cavity_is_seen()
    ensures { CavityIsSeen }
{}

/// A law, and no work: a node is needed exactly where one of the cavity isn't lent, and it is the least.
pub fn needed_is_least_missing()
    ensures { NeededIsLeastMissing }
{}

/// A law, and no work: the same of what is held, where the held pairs agree with the mesh.
pub fn needed_is_least_unheld()
    ensures { NeededIsLeastUnheld }
{}

/// A law, and no work: a node that is needed, where the stars of both ends are lent, is a neighbour in
/// one of the two.
pub fn needed_is_near()
    ensures { NeededIsNear }
{}

/// A law, and no work: each node of a cavity is live, where each condition passes that is judged from
/// the stars of the ends.
pub fn cavity_is_live()
    ensures { CavityIsLive }
{}

/// A law, and no work: such a cavity has at most 62 different nodes.
pub fn cavity_is_small()
    ensures { CavityIsSmall }
{}

/// A law, and no work: of each node that is shown, what is patched from the held stars is the star after
/// an operation that passes, or the absence.
pub fn patched_is_star()
    ensures { PatchedIsStar }
{}

/// A law, and no work: what is patched of the node that a bisection makes is its star.
pub fn patched_is_new_star()
    ensures { PatchedIsNewStar }
{}

/// A law, and no work: an operation that passes leaves the star, or the absence, of each node that is
/// neither in its cavity nor made by it.
pub fn outside_stays()
    ensures { OutsideStays }
{}

/// A law, and no work: held pairs that are true of a mesh are true after an operation, once each is
/// patched.
pub fn patched_pairs_agree()
    ensures { PatchedPairsAgree }
{}

/// A law, and no work: held pairs of nodes that aren't in the cavity stay true.
pub fn other_pairs_agree()
    ensures { OtherPairsAgree }
{}

/// A law, and no work: a contraction that passes has a cavity of at most 62 nodes.
pub fn contraction_has_few_nodes()
    ensures { ContractionHasFewNodes }
{}

/// A law, and no work: where the cavity is held, the patch has the star after of each node of the cavity,
/// or its absence, and that of the new node, by rising node.
pub fn patch_is_whole()
    ensures { PatchIsWhole }
{}

/// A law, and no work: a patch rises by node, whatever name it has for the new one.
pub fn patch_rises()
    ensures { PatchRises }
{}

/// A law, and no work: a patch that is made with a later name in the place of the new one is the patch,
/// once the new name is put for it. So it can be made before the ticket is drawn.
pub fn patch_is_renamed()
    ensures { PatchIsRenamed }
{}

/// A law, and no work: the copies of a mesh are exactly the stars of the nodes that each chunk shares,
/// each once, by rising chunk and node.
pub fn copies_are_shared()
    ensures { CopiesAreShared }
{}

/// A law, and no work: an operation fails by the same condition as its normal form, and is judged alike
/// from held stars.
pub fn normal_is_judged()
    ensures { NormalIsJudged }
{}

/// A law, and no work: an operation has the cavity of its normal form.
pub fn normal_has_cavity()
    ensures { NormalHasCavity }
{}

/// A law, and no work: an operation has the patch of its normal form.
pub fn normal_is_patched()
    ensures { NormalIsPatched }
{}

/// A law, and no work: the next neighbour after a name is the least above it, where there is one.
pub fn next_is_least_above()
    ensures { NextIsLeastAbove }
{}

/// A law, and no work: a chunk that owns a triangle at a node is a chunk of the mesh.
pub fn sharers_are_chunks()
    ensures { SharersAreChunks }
{}

/// A law, and no work: the copies of a mesh give it back, each node taken from its keeper's copy.
pub fn copies_give_mesh()
    ensures { CopiesGiveMesh }
{}
