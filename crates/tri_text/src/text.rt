//! Writing `.node` and `.ele` files.
ghost use Rattle.std.specs.Prelude.{◌≡◌, ◌<◌, ◌+◌, [], ◌∷◌, ◌++◌, map, decimal, AllPairs, IfOk, OnOk};
ghost use Rattle.std.specs.Fmt.{signed_decimal};
ghost use Rattle.pf_model.specs.Texts.{line_text, place_among, renumbered, node_text, ele_text};

use pf_geom::Point;
use pf_model::{Site, Tri};
use row_text::push_number;
use std::alloc::{AllocError, Global};

// The line of a node.
fn push_node(out: &mut Vec<u8>, number: u64, at: Point) -> Result<(), AllocError>
    ensures { OnOk result (out.new.items ≡ out.old.items ++ line_text (decimal number ∷ signed_decimal at.x ∷ signed_decimal at.y ∷ [])) }
{
    push_number(out, number, b' ')?;
    push_number(out, at.x, b' ')?;
    push_number(out, at.y, b'\n')
}

// The line of a triangle.
fn push_triangle(out: &mut Vec<u8>, number: u64, a: u64, b: u64, c: u64) -> Result<(), AllocError>
    ensures { OnOk result (out.new.items ≡ out.old.items ++ line_text (decimal number ∷ decimal a ∷ decimal b ∷ decimal c ∷ [])) }
{
    push_number(out, number, b' ')?;
    push_number(out, a, b' ')?;
    push_number(out, b, b' ')?;
    push_number(out, c, b'\n')
}

/// The `.node` text of sites: a line for each, numbered from `base`.
pub fn sites_text(alloc: Global, sites: &[Site], base: u32) -> Result<Vec<u8>, AllocError>
    ensures { IfOk result (λ text. text.items ≡ node_text base (map (λ s. s.at) sites.now)) }
{
    let mut out = Vec::new(alloc);
    push_number(&mut out, sites.len() as u64, b' ')?;
    out.extend_from_slice(b"2 0 0\n")?;
    for (place, site) in sites.iter().enumerate() {
        push_node(&mut out, base as u64 + place as u64, site.at)?;
    }
    Ok(out)
}

// The place of a live name among the live names, which rise.
fn index_of(sites: &[Site], name: u32) -> usize
    requires { AllPairs (λ r s. r.name < s.name) sites.now }
    ensures { result ≡ place_among sites.now name }
{
    match sites.get(name as usize) {
        // All names below it are live.
        Some(site) if site.name == name => name as usize,
        _ => sites.partition_point(|site| site.name < name),
    }
}

/// The `.ele` text of triangles over sites, whose names rise: a line for each, numbered from `base`, with
/// the numbers of its corners in the `.node` text of these sites.
pub fn tris_text(
    alloc: Global,
    sites: &[Site],
    tris: &[Tri],
    base: u32,
) -> Result<Vec<u8>, AllocError>
    requires { AllPairs (λ r s. r.name < s.name) sites.now }
    ensures { IfOk result (λ text. text.items ≡ ele_text base (map (renumbered sites.now) tris.now)) }
{
    let mut out = Vec::new(alloc);
    push_number(&mut out, tris.len() as u64, b' ')?;
    out.extend_from_slice(b"3 0\n")?;
    for (place, tri) in tris.iter().enumerate() {
        let a = base as u64 + index_of(sites, tri.a) as u64;
        let b = base as u64 + index_of(sites, tri.b) as u64;
        let c = base as u64 + index_of(sites, tri.c) as u64;
        push_triangle(&mut out, base as u64 + place as u64, a, b, c)?;
    }
    Ok(out)
}
