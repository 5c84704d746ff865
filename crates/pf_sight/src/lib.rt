//! What a held star shows to a judge: the triangles on both sides of its edges, and where its node and its
//! neighbours stand.
#![tactic(auto)]

mod places;
mod sides;

pub use places::{apex_place, place_in, placed};
pub use sides::{is_apex, sides_at, spokes_lent};
