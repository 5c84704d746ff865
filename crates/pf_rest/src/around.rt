//! The star of a node, read from the sorted list of edges with no look-up.
ghost use Rattle.std.specs.Prelude.{◌≡◌, ℕ, ◌++◌, ◌∷◌, [], All, Contains, IfSome, List, true};
ghost use Rattle.pf_model.specs.declared.Spoke.{Spoke};
ghost use Rattle.pf_model.specs.Rising.{IsRising};
ghost use Rattle.pf_model.specs.Mesh.{Undivided};
ghost use Rattle.pf_model.specs.Conforming.{IsConforming};
ghost use Rattle.pf_model.specs.Stars.{is_one_fan, left_after, spoke_lt, spokes_of};
ghost use Rattle.pf_rules.specs.Contract.{IsStar};
ghost use Rattle.pf_edge_list.specs.Edges.{IsListed, IsSided};
ghost use Rattle.pf_rules.specs.Star.{AreSomeOf};
ghost use Rattle.pf_spokes.specs.Spokes.{HasSpots};
ghost use Rattle.pf_edges.specs.Table.{ArePlacesInRange, Shows, Sides, side_at};

use arrayvec::ArrayVec;
use pf_edge_list::edges::{Edges, Sided};
use pf_edges::table::EdgeTable;
use pf_geom::NoMemory;
use pf_judge::star::spoke_with;
use pf_model::{Side, Spoke};
use pf_rules::scratch::StarLists;
use pf_rules::star::Spokes;
use pf_spokes::first_right;
use std::alloc::Global;

/// A node with more triangles isn't contracted.
const MOST_SPOKES: u64 = pf_model::MOST_SPOKES as u64;

/// What stands for no place.
const NO_PLACE: usize = 18_446_744_073_709_551_615;

/// Places in the list of the edges at a node.
pub type Arms = ArrayVec<usize, 120>;

/// For each name the place of the first edge whose higher name it is, and for each edge the place of the next
/// one with the same higher name. A place that is past the list is none. What is read through them is checked.
#[derive(Drop)]
pub struct Chains {
    pub firsts: Vec<usize>,
    pub later: Vec<usize>,
}

impl Chains {
    /// No chains.
    pub fn new(alloc: Global) -> Chains {
        Chains {
            firsts: Vec::new(alloc),
            later: Vec::new(alloc),
        }
    }
}

/// Lists that the contractions of a node are judged by, and the places of its edges.
#[derive(Drop)]
pub struct Around {
    pub lists: StarLists,
    pub arms: Arms,
}

impl Around {
    /// Empty lists.
    pub fn new() -> Around {
        Around {
            lists: StarLists::new(),
            arms: Arms::new(),
        }
    }
}

// So many entries that stand for no place.
fn no_places(alloc: Global, n: usize) -> Result<Vec<usize>, NoMemory> {
    let mut places = Vec::new(alloc);
    match places.resize(n, NO_PLACE) {
        Ok(()) => Ok(places),
        Err(_) => Err(NoMemory),
    }
}

/// The chains of the edges with the same higher name, by rising places.
pub fn chains_of(alloc: Global, edges: &[Sided], names: usize) -> Result<Chains, NoMemory> {
    let mut firsts = no_places(alloc, names)?;
    let mut later = no_places(alloc, edges.len())?;
    let mut place = edges.len();
    'places: while place > 0 {
        place -= 1;
        let hi = edges[place].span.hi as usize;
        if hi < firsts.len() && place < later.len() {
            later[place] = firsts[hi];
            firsts[hi] = place;
        }
    }
    Ok(Chains { firsts, later })
}

// The entry at a place, or none.
fn entry(places: &[usize], at: usize) -> usize {
    if at < places.len() {
        places[at]
    } else {
        NO_PLACE
    }
}

// Notes the place of an edge, where there is room.
fn push_arm(arms: &mut Arms, place: usize) {
    if arms.len() < 120 {
        arms.push(place);
    }
}

// The edge at a place of the list.
fn edge_at(edges: &[Sided], place: usize) -> Option<Sided>
    ensures { IfSome result (λ e. (table : Sides) → All (IsListed table) edges.now → IsSided table e) }
{
    if place < edges.len() {
        Some(edges[place])
    } else {
        None
    }
}

// Whether a spoke with this right stands after all of these, which rise.
fn is_after(spokes: &[Spoke], right: u32) -> bool
    ensures { result ≡ true → IsRising spoke_lt spokes.now → (s : Spoke) → s.right ≡ right → IsRising spoke_lt (spokes.now ++ s ∷ []) }
{
    if spokes.is_empty() {
        return true;
    }
    spokes[spokes.len() - 1].right < right
}

// Appends a spoke, where it stands after all of these and there is room.
fn push_after(star: &mut Spokes, spoke: Spoke)
    ensures part { (spokes : List Spoke) → AreSomeOf spokes star.old.items → Contains spokes spoke → AreSomeOf spokes star.new.items }
    ensures spots { HasSpots spoke → All HasSpots star.old.items → All HasSpots star.new.items }
{
    if star.len() < 60 && is_after(star.as_slice(), spoke.right) {
        star.push(spoke);
    }
}

// The left of the first spoke with this right.
fn left_of(star: &[Spoke], right: u32) -> Option<u32>
    ensures { result ≡ left_after star.now right }
{
    for s in star {
        if s.right == right {
            return Some(s.left);
        }
    }
    None
}

// Whether all spokes lie beside each other from this right on.
fn is_walk(star: &[Spoke], first: u32) -> bool
    ensures { (m : Undivided) (u : ℕ) → IsConforming m → star.now ≡ spokes_of m u → result ≡ true → is_one_fan (spokes_of m u) ≡ true }
{
    let Some(second) = left_of(star, first) else {
        return false;
    };
    let mut met: usize = 1;
    let mut right = second;
    'turns: while met < star.len() && right != first {
        let Some(left) = left_of(star, right) else {
            return false;
        };
        right = left;
        met += 1;
    }
    met == star.len()
}

// Whether the spokes, some at least, are one cycle or one path.
fn is_round(star: &[Spoke]) -> bool
    ensures { (m : Undivided) (u : ℕ) → IsConforming m → star.now ≡ spokes_of m u → result ≡ true → is_one_fan (spokes_of m u) ≡ true }
{
    if star.is_empty() {
        return false;
    }
    if is_walk(star, star[0].right) {
        return true;
    }
    match first_right(star) {
        Some(first) => is_walk(star, first),
        None => false,
    }
}

// Appends the triangle at a node with this right, which stands at the side, where it stands after the others.
fn gather_arm(table: &EdgeTable, right: u32, side: Option<Side>, star: &mut Spokes)
    ensures part { (m : Undivided) (u : ℕ) → IsConforming m → Shows table.now.sides table.now.nodes.items m
        → side ≡ side_at table.now.sides u right → AreSomeOf (spokes_of m u) star.old.items → AreSomeOf (spokes_of m u) star.new.items }
    ensures spots { ArePlacesInRange table.now.nodes.items → All HasSpots star.old.items → All HasSpots star.new.items }
{
    if let Some(spoke) = spoke_with(table, right, side) {
        push_after(star, spoke);
    }
}

// Appends the triangles at `u` with a right that is less, by the chain of the edges whose higher name is `u`.
fn gather_lower(
    table: &EdgeTable,
    edges: &Edges,
    chains: &Chains,
    u: u32,
    star: &mut Spokes,
    arms: &mut Arms,
)
    requires { All (IsListed table.now.sides) edges.now.list.items }
    ensures part { (m : Undivided) → IsConforming m → Shows table.now.sides table.now.nodes.items m
        → AreSomeOf (spokes_of m u) star.old.items → AreSomeOf (spokes_of m u) star.new.items }
    ensures spots { ArePlacesInRange table.now.nodes.items → All HasSpots star.old.items → All HasSpots star.new.items }
{
    let mut place = entry(&chains.firsts, u as usize);
    'chain: for _ in 0..120 {
        let Some(e) = edge_at(&edges.list, place) else {
            return;
        };
        if e.span.hi != u {
            return;
        }
        gather_arm(table, e.span.lo, e.edge_sides.right, star);
        push_arm(arms, place);
        place = entry(&chains.later, place);
    }
}

// Appends the triangles at `u` with a right that is greater, by the edges whose lower name is `u`.
fn gather_higher(table: &EdgeTable, edges: &Edges, u: u32, star: &mut Spokes, arms: &mut Arms)
    requires { All (IsListed table.now.sides) edges.now.list.items }
    ensures part { (m : Undivided) → IsConforming m → Shows table.now.sides table.now.nodes.items m
        → AreSomeOf (spokes_of m u) star.old.items → AreSomeOf (spokes_of m u) star.new.items }
    ensures spots { ArePlacesInRange table.now.nodes.items → All HasSpots star.old.items → All HasSpots star.new.items }
{
    'row: for place in entry(&edges.starts, u as usize)..edges.list.len() {
        let Some(e) = edge_at(&edges.list, place) else {
            return;
        };
        if e.span.lo != u {
            return;
        }
        gather_arm(table, e.span.hi, e.edge_sides.left, star);
        push_arm(arms, place);
    }
}

/// Whether `u` has few enough triangles, which are one cycle or one path, and the list's edges at `u`
/// show them all. Then `star` has its star. `arms` are the places of edges at `u`.
pub fn gather_star(
    table: &EdgeTable,
    edges: &Edges,
    chains: &Chains,
    u: u32,
    star: &mut Spokes,
    arms: &mut Arms,
) -> bool
    requires listed { All (IsListed table.now.sides) edges.now.list.items }
    ensures found { (m : Undivided) → IsConforming m → Shows table.now.sides table.now.nodes.items m → result ≡ true → IsStar m u star.new.items }
    ensures spots { ArePlacesInRange table.now.nodes.items → All HasSpots star.new.items }
{
    star.clear();
    arms.clear();
    let most = table.triangles(u);
    if most > MOST_SPOKES {
        return false;
    }
    gather_lower(table, edges, chains, u, star, arms);
    gather_higher(table, edges, u, star, arms);
    if star.len() as u64 != most {
        return false;
    }
    is_round(star.as_slice())
}
