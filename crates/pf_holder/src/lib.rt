//! Who holds nodes of a mesh, and what is known of a holder: what its calls tell, and when the answer to a
//! try of an operation is backed by what the holder came to know.
#![tactic(auto)]

mod holder;
mod laws;

pub use holder::{Hold, Holder};
pub use laws::backed_is_right;
