//! Stars as they are held and lent: the triangles at a node, with their points.
//!
//! A worker that holds the stars of a few nodes lends them as rings, without copying. What is judged,
//! needed and made from them stands in the crates above. A star may have any number of spokes.
#![tactic(auto)]

mod fan;
mod rename;
mod ring;
mod spokes;
mod star;

pub use fan::is_fan;
pub use rename::{rename_spokes, renamed_name};
pub use ring::{Ring, Rings};
pub use spokes::{has_owner, is_near, least_after, least_owner, spoke_from, spoke_to};
pub use star::{NewStar, Star};
