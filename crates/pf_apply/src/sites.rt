//! The list of live nodes by rising name, kept up to date by each operation.
ghost use Rattle.std.specs.Prelude.{◌≡◌, ◌+◌, ◌<◌, ◌≤◌, ◌==◌, AllPairs, not, filter, vec_len, vec_capacity};
ghost use Rattle.pf_apply.specs.Sites.{IsIndexOfSite, sites_after};

use pf_geom::Point;
use pf_model::{Op, Site};

// How many sites have a name below this one.
fn place(sites: &[Site], n: u32) -> usize
    requires { AllPairs (λ r s. r.name < s.name) sites.now }
    ensures { IsIndexOfSite n sites.now result }
{
    let mut low = 0;
    let mut high = sites.len();
    while low < high {
        let middle = low + (high - low) / 2;
        if sites[middle].name < n {
            low = middle + 1;
        } else {
            high = middle;
        }
    }
    low
}

// Takes a node out of the list.
fn remove_site(sites: &mut Vec<Site>, n: u32)
    requires { AllPairs (λ r s. r.name < s.name) sites.old.items }
    ensures removed { sites.new.items ≡ filter (λ s. not (s.name == n)) sites.old.items }
    ensures len { vec_len sites.new ≤ vec_len sites.old }
    ensures capacity { vec_capacity sites.old ≤ vec_capacity sites.new }
{
    let at = place(sites, n);
    if at >= sites.len() {
        return;
    }
    if sites[at].name != n {
        return;
    }
    sites.remove(at);
}

/// Brings the list up to date after an operation, whose new node is named `n` and stands at `at`. There
/// is room for one node more.
pub fn change_sites(sites: &mut Vec<Site>, n: u32, at: Point, op: Op)
    requires rising { AllPairs (λ r s. r.name < s.name) sites.old.items }
    requires room { vec_len sites.old < vec_capacity sites.old }
    ensures changed { sites.new.items ≡ sites_after sites.old.items n at op }
    ensures len { vec_len sites.new ≤ vec_len sites.old + 1 }
    ensures capacity { vec_capacity sites.old ≤ vec_capacity sites.new }
{
    match op {
        Op::Flip { a: _, b: _ } => {}
        Op::Bisect { a: _, b: _ } => sites.push(Site { name: n, at }).unwrap(),
        Op::Contract { u, v: _ } => remove_site(sites, u),
    }
}
