//! The undivided mesh: a conforming, positive triangle mesh that is edited one operation at a time.
#![tactic(auto)]

mod building;
mod entering;
mod mesh;

pub use building::{Room, build, build_in, build_room};
pub use mesh::{Mesh, MeshParts};
pub use pf_apply::run::{ApplyErr, RunErr};
pub use pf_model::{Band, BuildErr, Cond, Entry, Op, RestLine, Site, Tri};
