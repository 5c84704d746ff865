//! The triangles on both sides of an edge.
ghost use Rattle.std.specs.Prelude.{◌≡◌, ℕ, List, min, max, Option, is_some, ◌||◌};
ghost use Rattle.pf_model.specs.declared.Tri.{Tri};
ghost use Rattle.pf_model.specs.declared.Side.{Side};
ghost use Rattle.pf_rules.specs.EdgeSides.{AreEdgeSides, AreFoundSides};

use pf_model::Side;

/// The triangles on both sides of a directed edge.
#[derive(Clone, Copy, Debug, PartialEq, Eq)]
pub struct EdgeSides {
    pub left: Option<Side>,
    pub right: Option<Side>,
}

impl EdgeSides {
    /// Whether some triangle has the edge.
    pub fn is_edge(self) -> bool
        ensures { result ≡ (is_some self.left || is_some self.right) }
    {
        self.left.is_some() || self.right.is_some()
    }

    /// Those of the edge from the lower to the higher of its ends `p` and `q`.
    pub fn rising(self, p: u32, q: u32) -> EdgeSides
        ensures shown { (ts : List Tri) → AreEdgeSides ts p q self → AreEdgeSides ts (min p q) (max p q) result }
        ensures sides { (side : ℕ → ℕ → Option Side) → AreFoundSides side p q self → AreFoundSides side (min p q) (max p q) result }
    {
        if p <= q {
            return self;
        }
        EdgeSides {
            left: self.right,
            right: self.left,
        }
    }
}
