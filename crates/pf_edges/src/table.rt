//! The edge table: which triangle stands left of each directed edge, and the nodes by their names.
ghost use Rattle.std.specs.Prelude.{◌≡◌, ℕ, ◌+◌, ◌-◌, ◌*◌, ◌^◌, ◌<◌, ◌≤◌, ◌≢◌, ◌&&◌, ◌==◌, cond, List, All, Some, None, IsTrue, Bool, true, false, ◌⊎◌, length, vec_len, vec_capacity, is_some, ◌||◌, OnOk, IfOk};
ghost use Rattle.std.specs.Hash as fed;
ghost use Rattle.std.specs.Cmp.Rules.{hashing};
ghost use Rattle.std.proofs.Common.{rules};
ghost use Rattle.std.specs.List.{list_any};
ghost use Rattle.pf_geom.specs.Plane.{IsInRange};
ghost use Rattle.indexmap.specs.IndexMap.{spare, index_map_len, IsUnchanged};
ghost use Rattle.pf_model.specs.declared.Tri.{Tri};
ghost use Rattle.pf_model.specs.Rising.{insert_by};
ghost use Rattle.pf_model.specs.Mesh.{tri_lt, has_edge, has_corner};
ghost use Rattle.pf_model.specs.Build.{point_at};
ghost use Rattle.pf_edges.specs.Table.{IsEmptyTable, side_at, site_at, place_at, triangles_at, point_or_origin, ArePlacesInRange, HasNamedCorners, HasSamePlaces, ShowsTriangles};
ghost use Rattle.pf_edges.specs.Hasher.{place_of_edge};
ghost use Rattle.pf_model.specs.Exchange.{IsTurned, SharesNoEdge, CanExchange, exchanged, number_at};
ghost use Rattle.pf_model.specs.Limits.{most_spokes};
ghost use Rattle.pf_edges.specs.TableSteps.{side_with, side_with_all, side_without, side_bare, is_bare, is_removed, AreBare};

use crate::hasher::EdgeHasher;
use indexmap::IndexMap;
use pf_geom::{NoMemory, Point};
use pf_model::{Side, Tri};
use std::alloc::Global;
use std::hash::{BuildHasherDefault, Hash, Hasher};

/// A directed edge, by the names of its ends.
#[derive(Clone, Copy, Debug, PartialEq, Eq)]
pub struct Edge {
    pub from: u32,
    pub to: u32,
}

// Where an edge belongs in the table's memory: both directions of an edge side by side, and edges whose lower
// names are neighbours in neighbouring groups, as long as the higher ones are in the same run of 64 names. Those
// of the next run begin a fixed way further round the groups. The number of that way was sought so that the runs
// spread evenly over any number of groups. The upper eight bits, which the table looks at before it compares
// names, tell the rest of the higher name and the direction.
impl Hash for Edge {
    ghost hash_input = { λ e. fed.u64 (place_of_edge e.from e.to) };

    ghost respects_eq = { Prim.search (hashing, rules) };

    #[inline(always)]
    fn hash<H: Hasher>(&self, state: &mut H) {
        let low = self.from.min(self.to) as u64;
        let high = self.from.max(self.to) as u64;
        let rising = if self.from < self.to { 1 } else { 0 };
        let start = high / 64 * 1_382_478_937;
        let place = low + start + high % 64 * 16_777_216 + rising * 2_147_483_648;
        state.write_u64(place % 4_294_967_296);
    }
}

/// The directed edges, each with what stands on its left.
pub type SideMap = IndexMap<Edge, Side, BuildHasherDefault<EdgeHasher>>;

/// Where a node stands, and how many triangles it has. A node without one isn't live.
#[derive(Clone, Copy, Debug, PartialEq, Eq)]
pub struct Node {
    pub at: Point,
    pub triangles: u64,
}

/// The triangles by their directed edges, and the nodes by their names.
#[derive(Drop)]
pub struct EdgeTable {
    pub sides: SideMap,
    pub nodes: Vec<Node>,
}

// Whether one of the triangles has the directed edge from `p` to `q`.
fn is_side_of(tris: &[Tri], p: u32, q: u32) -> bool
    ensures { result ≡ list_any (has_edge p q) tris.now }
{
    tris.iter().any(|t| {
        (t.a == p && t.b == q) || (t.b == p && t.c == q) || (t.c == p && t.a == q)
    })
}

// Enters a triangle.
#[inline(always)]
fn enter(sides: &mut SideMap, t: Tri)
    requires { 3 ≤ spare sides.old }
    ensures sides { (p q : ℕ) → side_at sides.new p q ≡ side_with t p q (side_at sides.old p q) }
    ensures len { t.a ≢ t.b → t.b ≢ t.c → t.c ≢ t.a
        → side_at sides.old t.a t.b ≡ None → side_at sides.old t.b t.c ≡ None → side_at sides.old t.c t.a ≡ None
        → index_map_len sides.new ≡ index_map_len sides.old + 3 }
    ensures spare { spare sides.old ≤ spare sides.new + 3 }
{
    let Tri { a, b, c, owner } = t;
    sides
        .insert(Edge { from: c, to: a }, Side { apex: b, owner })
        .unwrap();
    sides
        .insert(Edge { from: b, to: c }, Side { apex: a, owner })
        .unwrap();
    sides
        .insert(Edge { from: a, to: b }, Side { apex: c, owner })
        .unwrap();
}

// Enters each of the triangles. Where a directed edge is there already, its side is written anew.
#[inline(never)]
fn enter_all(sides: &mut SideMap, new: &[Tri])
    requires { 3 * length new.now ≤ spare sides.old }
    ensures sides { (p q : ℕ) → side_at sides.new p q ≡ side_with_all new.now p q (side_at sides.old p q) }
    ensures spare { spare sides.old ≤ spare sides.new + 3 * length new.now }
{
    for t in new {
        enter(sides, *t);
    }
}

// Whether one of the triangles has the corner `n`.
fn is_corner_of(tris: &[Tri], n: u32) -> bool
    ensures { result ≡ list_any (has_corner n) tris.now }
{
    tris.iter().any(|t| t.a == n || t.b == n || t.c == n)
}

// Whether one of the triangles has both corners.
fn has_both(tris: &[Tri], u: u32, v: u32) -> bool
    ensures { result ≡ list_any (λ t. has_corner u t && has_corner v t) tris.now }
{
    tris.iter().any(|t| {
        (t.a == u || t.b == u || t.c == u) && (t.a == v || t.b == v || t.c == v)
    })
}

// The edges at `u` that none of the triangles has: all of them, or else those to `v` and from it.
fn bare_edges(tris: &[Tri], u: u32, v: u32) -> Option<bool>
    ensures { (all : Bool) → result ≡ Some all → AreBare u v all tris.now }
{
    if !is_corner_of(tris, u) {
        return Some(true);
    }
    if !has_both(tris, u, v) {
        return Some(false);
    }
    None
}

// Whether the directed edge from `p` to `q` is at `u`, and is at `v` too unless `all`.
#[inline(always)]
fn is_bare(u: u32, v: u32, all: bool, p: u32, q: u32) -> bool
    ensures { result ≡ is_bare u v all p q }
{
    (p == u && (all || q == v)) || (q == u && (all || p == v))
}

// Removes a directed edge.
#[inline(always)]
fn remove_edge(sides: &mut SideMap, p: u32, q: u32)
    ensures sides { (a b : ℕ) → side_at sides.new a b ≡ cond (p == a && q == b) None (side_at sides.old a b) }
    ensures spare { spare sides.old ≤ spare sides.new }
{
    sides.swap_remove(&Edge { from: p, to: q });
}

// Removes a directed edge that is bare.
#[inline(always)]
fn remove_bare(sides: &mut SideMap, p: u32, q: u32, u: u32, v: u32, all: bool)
    ensures sides { (a b : ℕ) → side_at sides.new a b ≡ side_bare (p == a && q == b) (is_bare u v all a b) (side_at sides.old a b) }
    ensures spare { spare sides.old ≤ spare sides.new }
{
    if is_bare(u, v, all, p, q) {
        remove_edge(sides, p, q);
    }
}

// Removes the bare edges of a triangle.
#[inline(always)]
fn remove_bare_edges(sides: &mut SideMap, t: Tri, u: u32, v: u32, all: bool)
    ensures sides { (p q : ℕ) → side_at sides.new p q ≡ side_bare (has_edge p q t) (is_bare u v all p q) (side_at sides.old p q) }
    ensures spare { spare sides.old ≤ spare sides.new }
{
    remove_bare(sides, t.a, t.b, u, v, all);
    remove_bare(sides, t.b, t.c, u, v, all);
    remove_bare(sides, t.c, t.a, u, v, all);
}

// Removes the bare edges of the triangles.
#[inline(never)]
fn remove_all_bare(sides: &mut SideMap, removed: &[Tri], u: u32, v: u32, all: bool)
    ensures sides { (p q : ℕ) → side_at sides.new p q
        ≡ side_bare (list_any (has_edge p q) removed.now) (is_bare u v all p q) (side_at sides.old p q) }
    ensures spare { spare sides.old ≤ spare sides.new }
{
    for t in removed {
        remove_bare_edges(sides, *t, u, v, all);
    }
}

// Removes a directed edge that none of the triangles has.
fn remove_unless(sides: &mut SideMap, p: u32, q: u32, new: &[Tri])
    ensures sides { (a b : ℕ) → side_at sides.new a b ≡ side_without (p == a && q == b) new.now a b (side_at sides.old a b) }
    ensures spare { spare sides.old ≤ spare sides.new }
{
    if !is_side_of(new, p, q) {
        remove_edge(sides, p, q);
    }
}

// Removes the directed edges of a triangle that none of the others has.
fn remove_edges(sides: &mut SideMap, t: Tri, new: &[Tri])
    ensures sides { (p q : ℕ) → side_at sides.new p q ≡ side_without (has_edge p q t) new.now p q (side_at sides.old p q) }
    ensures spare { spare sides.old ≤ spare sides.new }
{
    remove_unless(sides, t.a, t.b, new);
    remove_unless(sides, t.b, t.c, new);
    remove_unless(sides, t.c, t.a, new);
}

// Removes the directed edges that a triangle of the first list has and none of the second.
#[inline(never)]
fn remove_all(sides: &mut SideMap, removed: &[Tri], new: &[Tri])
    ensures sides { (p q : ℕ) → side_at sides.new p q
        ≡ side_without (list_any (has_edge p q) removed.now) new.now p q (side_at sides.old p q) }
    ensures spare { spare sides.old ≤ spare sides.new }
{
    for t in removed {
        remove_edges(sides, *t, new);
    }
}

// Removes the edges of the first list at `u` that are bare of the second, and says whether so many sides are
// left then.
fn removes_bare(
    sides: &mut SideMap,
    removed: &[Tri],
    new: &[Tri],
    u: u32,
    v: u32,
    left: usize,
) -> bool
    ensures kept { (p q : ℕ) → is_removed removed.now new.now p q ≡ false → side_at sides.new p q ≡ side_at sides.old p q }
    ensures left { IsTrue result → index_map_len sides.new ≡ left }
    ensures spare { spare sides.old ≤ spare sides.new }
{
    let Some(all) = bare_edges(new, u, v) else {
        return false;
    };
    remove_all_bare(sides, removed, u, v, all);
    sides.len() == left
}

// Removes the directed edges that a triangle of the first list has and none of the second. Most often these
// are the bare edges at `u`. Where as many sides are left after those as there should be, no others are
// looked at.
fn remove_replaced(sides: &mut SideMap, removed: &[Tri], new: &[Tri], u: u32, v: u32, left: usize)
    ensures kept { (p q : ℕ) → is_removed removed.now new.now p q ≡ false → side_at sides.new p q ≡ side_at sides.old p q }
    ensures removed { (index_map_len sides.new ≡ left) ⊎ ((p q : ℕ) → is_removed removed.now new.now p q ≡ true → side_at sides.new p q ≡ None) }
    ensures spare { spare sides.old ≤ spare sides.new }
{
    if removes_bare(sides, removed, new, u, v, left) {
        return;
    }
    remove_all(sides, removed, new);
}

// A node without triangles at each point.
fn nodes_of(alloc: Global, points: &[Point]) -> Result<Vec<Node>, NoMemory>
    ensures names { IfOk result (λ nodes. length nodes.items ≡ length points.now) }
    ensures places { IfOk result (λ nodes. (n : ℕ) → place_at nodes.items n ≡ point_at points.now n) }
    ensures bare { IfOk result (λ nodes. (n : ℕ) → triangles_at nodes.items n ≡ 0) }
{
    let Ok(mut nodes) = Vec::with_capacity(alloc, points.len()) else {
        return Err(NoMemory);
    };
    for at in points {
        if nodes
            .push(Node {
                at: *at,
                triangles: 0,
            })
            .is_err()
        {
            return Err(NoMemory);
        }
    }
    Ok(nodes)
}

// The node has one triangle more.
#[inline(always)]
fn raise(nodes: &mut Vec<Node>, n: u32)
    requires { n < vec_len nodes.old }
    ensures counts { (k : ℕ) → triangles_at nodes.old.items n < 2 ^ 63
        → triangles_at nodes.new.items k ≡ cond (n == k) 1 0 + triangles_at nodes.old.items k }
    ensures places { HasSamePlaces nodes.old.items nodes.new.items }
    ensures room { vec_capacity nodes.old ≤ vec_capacity nodes.new }
{
    let node = nodes[n as usize];
    nodes[n as usize] = Node {
        at: node.at,
        triangles: node.triangles.saturating_add(1),
    };
}

// The node has one triangle less.
#[inline(always)]
fn lower(nodes: &mut Vec<Node>, n: u32)
    requires { n < vec_len nodes.old }
    ensures counts { (k : ℕ) → triangles_at nodes.new.items k ≡ triangles_at nodes.old.items k - cond (n == k) 1 0 }
    ensures places { HasSamePlaces nodes.old.items nodes.new.items }
    ensures room { vec_capacity nodes.old ≤ vec_capacity nodes.new }
{
    let node = nodes[n as usize];
    nodes[n as usize] = Node {
        at: node.at,
        triangles: node.triangles.saturating_sub(1),
    };
}

// The corners of a triangle have one triangle more.
#[inline(always)]
fn raise_corners(nodes: &mut Vec<Node>, t: Tri)
    requires { HasNamedCorners nodes.old.items t }
    ensures counts { IsTurned t → ((n : ℕ) → triangles_at nodes.old.items n < 2 ^ 62)
        → (n : ℕ) → triangles_at nodes.new.items n ≡ cond (has_corner n t) 1 0 + triangles_at nodes.old.items n }
    ensures places { HasSamePlaces nodes.old.items nodes.new.items }
    ensures room { vec_capacity nodes.old ≤ vec_capacity nodes.new }
{
    raise(nodes, t.a);
    raise(nodes, t.b);
    raise(nodes, t.c);
}

// The corners of a triangle have one triangle less.
#[inline(always)]
fn lower_corners(nodes: &mut Vec<Node>, t: Tri)
    requires { HasNamedCorners nodes.old.items t }
    ensures counts { IsTurned t → (n : ℕ) → triangles_at nodes.new.items n ≡ triangles_at nodes.old.items n - cond (has_corner n t) 1 0 }
    ensures places { HasSamePlaces nodes.old.items nodes.new.items }
    ensures room { vec_capacity nodes.old ≤ vec_capacity nodes.new }
{
    lower(nodes, t.a);
    lower(nodes, t.b);
    lower(nodes, t.c);
}

// The corners of each of the triangles have one triangle more for it.
#[inline(never)]
fn raise_all(nodes: &mut Vec<Node>, new: &[Tri])
    requires { All (HasNamedCorners nodes.old.items) new.now }
    ensures counts { All IsTurned new.now → ((n : ℕ) → triangles_at nodes.old.items n + length new.now < 2 ^ 62)
        → (n : ℕ) → triangles_at nodes.new.items n ≡ number_at n new.now + triangles_at nodes.old.items n }
    ensures places { HasSamePlaces nodes.old.items nodes.new.items }
    ensures room { vec_capacity nodes.old ≤ vec_capacity nodes.new }
{
    for t in new {
        raise_corners(nodes, *t);
    }
}

// The corners of each of the triangles have one triangle less for it.
#[inline(never)]
fn lower_all(nodes: &mut Vec<Node>, removed: &[Tri])
    requires { All (HasNamedCorners nodes.old.items) removed.now }
    ensures counts { All IsTurned removed.now → (n : ℕ) → triangles_at nodes.new.items n ≡ triangles_at nodes.old.items n - number_at n removed.now }
    ensures places { HasSamePlaces nodes.old.items nodes.new.items }
    ensures room { vec_capacity nodes.old ≤ vec_capacity nodes.new }
{
    for t in removed {
        lower_corners(nodes, *t);
    }
}

impl EdgeTable {
    /// A table of these points and no triangles, with room for so many. It has a third more room than they
    /// need, so that few groups of the map are full.
    pub fn of_points(
        alloc: Global,
        points: &[Point],
        triangles: usize,
    ) -> Result<EdgeTable, NoMemory>
        requires { triangles < 2 ^ 32 }
        ensures empty { IfOk result (λ t. IsEmptyTable t.sides t.nodes.items points.now) }
        ensures room { IfOk result (λ t. 3 * triangles ≤ spare t.sides) }
    {
        let Ok(sides) = IndexMap::with_capacity_and_hasher(
            alloc,
            4 * triangles,
            BuildHasherDefault::new(),
        ) else {
            return Err(NoMemory);
        };
        let nodes = nodes_of(alloc, points)?;
        Ok(EdgeTable { sides, nodes })
    }

    /// Puts a triangle in.
    pub fn put(&mut self, t: Tri)
        requires within { HasNamedCorners self.old.nodes.items t }
        requires room { 3 ≤ spare self.old.sides }
        ensures shows { (ts : List Tri) → ShowsTriangles self.old.sides self.old.nodes.items ts → IsTurned t → SharesNoEdge t ts
            → ShowsTriangles self.new.sides self.new.nodes.items (insert_by tri_lt t ts) }
        ensures places { HasSamePlaces self.old.nodes.items self.new.nodes.items }
        ensures room { spare self.old.sides ≤ spare self.new.sides + 3 }
    {
        let _ = self.sides.len();
        enter(&mut self.sides, t);
        raise_corners(&mut self.nodes, t);
    }

    /// The first triangles give way to the second. The second are entered first, so that the directed edges
    /// that both have stay where they are. The names are those of an edge that goes, and the first of them
    /// may be a node that goes.
    pub fn exchange(&mut self, u: u32, v: u32, removed: &[Tri], new: &[Tri])
        requires removed_few { length removed.now ≤ most_spokes }
        requires new_few { length new.now ≤ most_spokes }
        requires removed_within { All (HasNamedCorners self.old.nodes.items) removed.now }
        requires new_within { All (HasNamedCorners self.old.nodes.items) new.now }
        requires room { 3 * length new.now ≤ spare self.old.sides }
        ensures shows { (ts : List Tri) → ShowsTriangles self.old.sides self.old.nodes.items ts → CanExchange removed.now new.now ts
            → ShowsTriangles self.new.sides self.new.nodes.items (exchanged removed.now new.now ts) }
        ensures places { HasSamePlaces self.old.nodes.items self.new.nodes.items }
        ensures room { spare self.old.sides ≤ spare self.new.sides + 3 * length new.now }
        ensures names { vec_capacity self.old.nodes ≤ vec_capacity self.new.nodes }
    {
        let left = (self.sides.len() + 3 * new.len()).saturating_sub(3 * removed.len());
        enter_all(&mut self.sides, new);
        remove_replaced(&mut self.sides, removed, new, u, v, left);
        let _ = self.sides.len();
        lower_all(&mut self.nodes, removed);
        raise_all(&mut self.nodes, new);
    }

    /// The triangle on the left of the directed edge from `p` to `q`.
    pub fn side(&self, p: u32, q: u32) -> Option<Side>
        ensures { result ≡ side_at self.now.sides p q }
    {
        self.sides.get(&Edge { from: p, to: q }).copied()
    }

    /// Whether some triangle has both names as an edge.
    pub fn is_edge(&self, p: u32, q: u32) -> bool
        ensures { result ≡ (is_some (side_at self.now.sides p q) || is_some (side_at self.now.sides q p)) }
    {
        self.side(p, q).is_some() || self.side(q, p).is_some()
    }

    /// Where a live node stands.
    pub fn site(&self, n: u32) -> Option<Point>
        ensures { result ≡ site_at self.now.nodes.items n }
    {
        if (n as usize) < self.nodes.len() && self.nodes[n as usize].triangles > 0 {
            Some(self.nodes[n as usize].at)
        } else {
            None
        }
    }

    /// Where a node stands, and the origin where it isn't live.
    pub fn spot(&self, n: u32) -> Point
        ensures { result ≡ point_or_origin self.now.nodes.items n }
    {
        self.site(n).unwrap_or(Point { x: 0, y: 0 })
    }

    /// The same, which is in range where every place is.
    pub fn point(&self, n: u32) -> Point
        requires { ArePlacesInRange self.now.nodes.items }
        ensures value { result ≡ point_or_origin self.now.nodes.items n }
        ensures in_range { IsInRange result }
    {
        self.spot(n)
    }

    /// Makes room for so many names, and for so many triangles more.
    pub fn reserve(&mut self, names: usize, triangles: usize) -> Result<(), NoMemory>
        requires { triangles < 2 ^ 40 }
        ensures sides { IsUnchanged self.old.sides self.new.sides }
        ensures nodes { self.new.nodes.items ≡ self.old.nodes.items }
        ensures names { OnOk result (names ≤ vec_capacity self.new.nodes) }
        ensures ok { OnOk result (3 * triangles ≤ spare self.new.sides) }
    {
        let more = names.saturating_sub(self.nodes.len());
        if self.nodes.reserve(more).is_err() {
            return Err(NoMemory);
        }
        match self.sides.reserve(3 * triangles) {
            Ok(()) => Ok(()),
            Err(_) => Err(NoMemory),
        }
    }
}
