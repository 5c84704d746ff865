//! The list of triangles by rising corners, kept up to date by each operation.
ghost use Rattle.std.specs.Prelude.{◌≡◌, ◌+◌, ◌<◌, ◌≤◌, Contains, length, vec_len, vec_capacity};
ghost use Rattle.pf_model.specs.Rising.{IsRising, insert_by, insert_all_by};
ghost use Rattle.pf_model.specs.Mesh.{tri_lt};
ghost use Rattle.pf_model.specs.Exchange.{AreSound, AreFit, CanTake, CanExchange, without, without_all, exchanged};
ghost use Rattle.pf_apply.specs.Listing.{IsRank};

use pf_model::Tri;

// Whether the first triangle stands before the second, by corners.
fn is_before(s: Tri, t: Tri) -> bool
    ensures { result ≡ tri_lt s t }
{
    s.a < t.a || (s.a == t.a && (s.b < t.b || (s.b == t.b && s.c < t.c)))
}

// How many triangles of the list aren't after this one.
fn rank(tris: &[Tri], t: Tri) -> usize
    requires { IsRising tri_lt tris.now }
    ensures { IsRank t tris.now result }
{
    let mut low = 0;
    let mut high = tris.len();
    while low < high {
        let middle = low + (high - low) / 2;
        if is_before(t, tris[middle]) {
            high = middle;
        } else {
            low = middle + 1;
        }
    }
    low
}

// Takes a triangle out of the list.
fn remove_listed(tris: &mut Vec<Tri>, t: Tri)
    requires rising { IsRising tri_lt tris.old.items }
    requires sound { AreSound tris.old.items }
    requires there { Contains tris.old.items t }
    ensures removed { tris.new.items ≡ without t tris.old.items }
    ensures len { vec_len tris.new + 1 ≡ vec_len tris.old }
    ensures capacity { vec_capacity tris.new ≡ vec_capacity tris.old }
{
    let after = rank(tris, t);
    tris.remove(after - 1);
}

// Puts a triangle into the list, where there is room for it.
fn enter_listed(tris: &mut Vec<Tri>, t: Tri)
    requires rising { IsRising tri_lt tris.old.items }
    requires room { vec_len tris.old < vec_capacity tris.old }
    ensures entered { tris.new.items ≡ insert_by tri_lt t tris.old.items }
    ensures len { vec_len tris.new ≡ vec_len tris.old + 1 }
    ensures capacity { vec_capacity tris.old ≤ vec_capacity tris.new }
{
    let at = rank(tris, t);
    tris.insert(at, t).unwrap();
}

// Takes each of the triangles out of the list.
fn remove_all(tris: &mut Vec<Tri>, removed: &[Tri])
    requires rising { IsRising tri_lt tris.old.items }
    requires can { CanTake removed.now tris.old.items }
    ensures removed { tris.new.items ≡ without_all removed.now tris.old.items }
    ensures len { vec_len tris.new ≤ vec_len tris.old }
    ensures capacity { vec_capacity tris.new ≡ vec_capacity tris.old }
{
    for t in removed {
        remove_listed(tris, *t);
    }
}

// Puts each of the triangles into the list, where there is room for them.
fn enter_all(tris: &mut Vec<Tri>, new: &[Tri])
    requires rising { IsRising tri_lt tris.old.items }
    requires fit { AreFit new.now tris.old.items }
    requires room { vec_len tris.old + length new.now ≤ vec_capacity tris.old }
    ensures entered { tris.new.items ≡ insert_all_by tri_lt new.now tris.old.items }
    ensures len { vec_len tris.new ≡ vec_len tris.old + length new.now }
    ensures capacity { vec_capacity tris.old ≤ vec_capacity tris.new }
{
    let mut left = new.len();
    while left > 0 {
        left -= 1;
        enter_listed(tris, new[left]);
    }
}

/// The first triangles give way to the second, where there is room for these.
pub fn exchange_listed(tris: &mut Vec<Tri>, removed: &[Tri], new: &[Tri])
    requires rising { IsRising tri_lt tris.old.items }
    requires can { CanExchange removed.now new.now tris.old.items }
    requires room { vec_len tris.old + length new.now ≤ vec_capacity tris.old }
    ensures exchanged { tris.new.items ≡ exchanged removed.now new.now tris.old.items }
    ensures len { vec_len tris.new ≤ vec_len tris.old + length new.now }
    ensures capacity { vec_capacity tris.old ≤ vec_capacity tris.new }
{
    remove_all(tris, removed);
    enter_all(tris, new);
}
