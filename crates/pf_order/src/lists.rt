//! Lists of edges and of nodes, each at most once, newest last.
ghost use Rattle.std.specs.Prelude.{◌<◌, ◌≤◌, length, IfSome};

use indexmap::IndexSet;
use pf_edges::hasher::EdgeHasher;
use pf_edges::table::Edge;
use pf_geom::NoMemory;
use std::alloc::Global;
use std::hash::BuildHasherDefault;
use std::marker::Model;

/// Directed edges, each at most once. Edges that are near each other in the mesh are near each other in memory, as in the
/// edge table. Contracts see the edges.
#[derive(Drop)]
pub struct EdgeStack {
    edges: IndexSet<Edge, BuildHasherDefault<EdgeHasher>>,
}

impl Model for EdgeStack {
    ghost use Rattle.std.specs.Prelude.{List};
    ghost use Rattle.pf_edges.specs.declared.table.Edge.{Edge};

    ghost Value = { List Edge };

    ghost view = { λ s. s.edges.keys };
}

// The ends of an edge.
fn ends_of(edge: Edge) -> (u32, u32) {
    (edge.from, edge.to)
}

impl EdgeStack {
    /// No edges.
    pub fn new(alloc: Global) -> EdgeStack {
        EdgeStack {
            edges: IndexSet::with_hasher(alloc, BuildHasherDefault::new()),
        }
    }

    /// Puts the edge on top, unless it stands there already. Want of memory is its only failure.
    pub fn push(&mut self, from: u32, to: u32) -> Result<(), NoMemory> {
        match self.edges.insert(Edge { from, to }) {
            Ok(_) => Ok(()),
            Err(_) => Err(NoMemory),
        }
    }

    /// Takes the newest edge.
    pub fn pop(&mut self) -> Option<(u32, u32)>
        ensures fewer { IfSome result (λ _. length self.new < length self.old) }
        ensures most { length self.new ≤ length self.old }
    {
        match self.edges.pop() {
            Some(edge) => Some(ends_of(edge)),
            None => None,
        }
    }

    /// How many edges there are.
    pub fn len(&self) -> usize {
        self.edges.len()
    }

    /// Takes the edge at this place, counted from the oldest, and puts the newest in its place.
    pub fn take_at(&mut self, place: usize) -> Option<(u32, u32)> {
        match self.edges.swap_remove_index(place) {
            Some(edge) => Some(ends_of(edge)),
            None => None,
        }
    }
}

/// Nodes, each at most once.
#[derive(Drop)]
pub struct NodeStack {
    names: Vec<u32>,
    // Whether a node is there, by its name, as far as names were put.
    marks: Vec<bool>,
}

impl NodeStack {
    /// No nodes.
    pub fn new(alloc: Global) -> NodeStack {
        NodeStack {
            names: Vec::new(alloc),
            marks: Vec::new(alloc),
        }
    }

    /// Puts the node on top, unless it stands there already. Want of memory is its only failure.
    pub fn push(&mut self, n: u32) -> Result<(), NoMemory> {
        let at = n as usize;
        if at >= self.marks.len() {
            self.marks.resize(at + 1, false).map_err(|_| NoMemory)?;
        }
        if at >= self.marks.len() || self.marks[at] {
            return Ok(());
        }
        self.names.push(n).map_err(|_| NoMemory)?;
        self.marks[at] = true;
        Ok(())
    }

    /// Takes the newest node.
    pub fn pop(&mut self) -> Option<u32> {
        let n = self.names.pop()?;
        let at = n as usize;
        if at < self.marks.len() {
            self.marks[at] = false;
        }
        Some(n)
    }

    /// Whether the node is there.
    pub fn contains(&self, n: u32) -> bool {
        let at = n as usize;
        at < self.marks.len() && self.marks[at]
    }
}
