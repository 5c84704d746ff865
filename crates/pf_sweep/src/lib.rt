//! The stars of a mesh, from its lists of nodes and triangles.
//!
//! `star_at` makes the star of one node, and may look at every triangle. `stars` makes those of all nodes in one
//! sweep: it lists each triangle as each of its corners has it, sorts that list by node, and cuts it.
#![tactic(auto)]

mod alone;
mod corners;
mod points;
mod sweep;

pub use alone::star_at;
pub use points::points_by_name;
pub use sweep::stars;
