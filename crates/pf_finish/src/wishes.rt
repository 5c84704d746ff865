//! The edges at a node that may have a line in the rest list, each from its lower end.
ghost use Rattle.std.specs.Prelude.{◌≡◌, ℕ, ◌≤◌, [], true, Some, None, Contains, OnOk};
ghost use Rattle.pf_model.specs.Stars.{Star, star_of, is_neighbour};
ghost use Rattle.pf_rings.specs.Points.{first_to};
ghost use Rattle.pf_holder.specs.Facts.{LendsAll, mesh_alone};
ghost use Rattle.pf_finish.specs.Wished.{is_wished, HasWishes};

use pf_geom::NoMemory;
use pf_holder::{Hold, Holder};
use pf_model::Band;
use pf_rings::{Star, spoke_to};
use pf_wishes::look;

// Appends a neighbour whose edge may have a line.
fn wish_kept(bands: &[Band], star: &Star, x: u32, found: &mut Vec<u32>) -> Result<(), NoMemory>
    ensures grows { (y : ℕ) → Contains found.old.items y → Contains found.new.items y }
    ensures kept { OnOk result (is_neighbour x star.now.spokes ≡ true → is_wished bands.now star.now x ≡ true → Contains found.new.items x) }
{
    let Some(seen) = look(bands, star, x) else {
        return Ok(());
    };
    if (seen.long || seen.short || seen.shorter_flip) && !found.contains(&x) {
        if found.push(x).is_err() {
            return Err(NoMemory);
        }
    }
    Ok(())
}

// The same, unless the neighbour is the lower end.
fn rising_kept(bands: &[Band], star: &Star, x: u32, found: &mut Vec<u32>) -> Result<(), NoMemory>
    ensures grows { (y : ℕ) → Contains found.old.items y → Contains found.new.items y }
    ensures kept { OnOk result (star.now.node ≤ x → is_neighbour x star.now.spokes ≡ true → is_wished bands.now star.now x ≡ true → Contains found.new.items x) }
{
    if x < star.node() {
        return Ok(());
    }
    wish_kept(bands, star, x, found)
}

// The same for the left of a spoke, unless it is the right of one.
fn left_kept(bands: &[Band], star: &Star, x: u32, found: &mut Vec<u32>) -> Result<(), NoMemory>
    ensures grows { (y : ℕ) → Contains found.old.items y → Contains found.new.items y }
    ensures kept { OnOk result (first_to x star.now.spokes ≡ None → star.now.node ≤ x → is_neighbour x star.now.spokes ≡ true → is_wished bands.now star.now x ≡ true → Contains found.new.items x) }
{
    if spoke_to(star.spokes(), x).is_some() {
        return Ok(());
    }
    rising_kept(bands, star, x, found)
}

// Appends the neighbours in a star, none below its node, whose edges may have a line.
fn star_wishes(bands: &[Band], star: &Star, found: &mut Vec<u32>) -> Result<(), NoMemory>
    ensures { OnOk result (HasWishes bands.now star.now found.new.items) }
{
    'spokes: for s in star.spokes() {
        rising_kept(bands, star, s.right, found)?;
        left_kept(bands, star, s.left, found)?;
    }
    Ok(())
}

// The same, where the star of the node is lent.
fn lent_wishes<H: Holder>(h: &H, n: u32, found: &mut Vec<u32>) -> Result<(), NoMemory>
    ensures { OnOk result ((s : Star) → H.lent h.now n ≡ Some s → HasWishes (H.opening h.now).mesh.bands s found.new.items) }
{
    match h.ring(n) {
        Some(ring) => star_wishes(h.bands(), ring.star(), found),
        None => Ok(()),
    }
}

// The same for a node, which is held then, where it is live.
fn held_wishes<H: Holder>(h: &mut H, n: u32, found: &mut Vec<u32>) -> Result<(), NoMemory>
    requires alone { H.alone h.old }
    requires nothing { H.pairs h.old ≡ [] }
    requires lends { LendsAll (H.lent h.old) (H.pairs h.old) }
    ensures same { H.same h.old h.new }
    ensures kept { (H.entries h.new ≡ H.entries h.old) × (H.allowance h.new ≡ H.allowance h.old) }
    ensures found { OnOk result ((s : Star) → star_of (mesh_alone (H.opening h.old) (H.entries h.old)) n ≡ Some s → HasWishes (H.opening h.old).mesh.bands s found.new.items) }
{
    match h.hold(n) {
        Hold::Won => lent_wishes(h, n, found),
        Hold::Lost { holder: _ } => Ok(()),
        Hold::Dead => Ok(()),
        Hold::Never => Ok(()),
    }
}

/// Appends the neighbours of a node, none below it, whose edges are long or short, or have a shorter other diagonal. Of
/// the edges whose lower end it is, the others have no line.
pub fn wishes_at<H: Holder>(h: &mut H, n: u32, found: &mut Vec<u32>) -> Result<(), NoMemory>
    requires alone { H.alone h.old }
    requires nothing { (H.pairs h.old ≡ []) × (H.unborn h.old ≡ None) × (H.owed h.old ≡ []) }
    requires lends { LendsAll (H.lent h.old) (H.pairs h.old) }
    ensures same { H.same h.old h.new }
    ensures nothing { (H.pairs h.new ≡ []) × (H.unborn h.new ≡ None) × (H.owed h.new ≡ []) }
    ensures lends { LendsAll (H.lent h.new) (H.pairs h.new) }
    ensures kept { (H.entries h.new ≡ H.entries h.old) × (H.allowance h.new ≡ H.allowance h.old) }
    ensures found { OnOk result ((s : Star) → star_of (mesh_alone (H.opening h.old) (H.entries h.old)) n ≡ Some s → HasWishes (H.opening h.old).mesh.bands s found.new.items) }
{
    let told = held_wishes(h, n, found);
    h.give_back();
    told
}
