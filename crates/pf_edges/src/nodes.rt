//! The nodes of the edge table by name: more names, and where a new node stands.
ghost use Rattle.std.specs.Prelude.{◌≡◌, ℕ, ◌<◌, ◌≤◌, ◌==◌, length, ◌≢◌, cond, vec_len, vec_capacity, slice_index_or};
ghost use Rattle.pf_edges.specs.Table.{ArePlacesInRange, triangles_at, no_node, place_at};
ghost use Rattle.pf_geom.specs.Plane.{IsInRange};

use crate::table::{EdgeTable, Node};
use pf_geom::Point;

// What stands past the last name.
const NO_NODE: Node = Node {
    at: Point { x: 0, y: 0 },
    triangles: 0,
};

// Makes names up to this one, none of them live, where there is room for them.
fn make_names(nodes: &mut Vec<Node>, n: u32)
    requires { n < vec_capacity nodes.old }
    ensures same { (k : ℕ) → slice_index_or nodes.new.items k no_node ≡ slice_index_or nodes.old.items k no_node }
    ensures names { length nodes.old.items ≤ length nodes.new.items }
    ensures named { n < length nodes.new.items }
    ensures room { vec_capacity nodes.old ≤ vec_capacity nodes.new }
{
    while nodes.len() <= n as usize {
        nodes.push(NO_NODE).unwrap();
    }
}

// Says where a node stands.
fn stand(nodes: &mut Vec<Node>, n: u32, at: Point)
    requires { n < vec_len nodes.old }
    ensures counts { (k : ℕ) → triangles_at nodes.new.items k ≡ triangles_at nodes.old.items k }
    ensures places { (k : ℕ) → place_at nodes.new.items k ≡ cond (n == k) at (place_at nodes.old.items k) }
    ensures names { length nodes.new.items ≡ length nodes.old.items }
    ensures room { vec_capacity nodes.old ≤ vec_capacity nodes.new }
{
    let node = nodes[n as usize];
    nodes[n as usize] = Node {
        at,
        triangles: node.triangles,
    };
}

impl EdgeTable {
    /// The number of triangles at a node.
    pub fn triangles(&self, n: u32) -> u64
        ensures { result ≡ triangles_at self.now.nodes.items n }
    {
        if (n as usize) < self.nodes.len() {
            self.nodes[n as usize].triangles
        } else {
            0
        }
    }

    /// Says where the node `n` stands, whose name may be a new one that there is room for. It gets no triangles
    /// by that.
    pub fn stand_at(&mut self, n: u32, at: Point)
        requires in_range { IsInRange at }
        requires room { n < vec_capacity self.old.nodes }
        ensures sides { self.new.sides ≡ self.old.sides }
        ensures counts { (k : ℕ) → triangles_at self.new.nodes.items k ≡ triangles_at self.old.nodes.items k }
        ensures others { (k : ℕ) → n ≢ k → place_at self.new.nodes.items k ≡ place_at self.old.nodes.items k }
        ensures names { length self.old.nodes.items ≤ length self.new.nodes.items }
        ensures named { n < length self.new.nodes.items }
        ensures in_range { ArePlacesInRange self.old.nodes.items → ArePlacesInRange self.new.nodes.items }
        ensures stands { place_at self.new.nodes.items n ≡ at }
        ensures room { vec_capacity self.old.nodes ≤ vec_capacity self.new.nodes }
    {
        make_names(&mut self.nodes, n);
        stand(&mut self.nodes, n, at);
    }
}
