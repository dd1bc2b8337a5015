// From a value to the one that a pointer names: SPECIFICATION 6.1.
#![tactic(auto)]

pub mod names; // a pointer's token as a name
pub mod steps; // from a value to its child by a token
pub mod path; // from a value to the one that a pointer leads to

pub use names::{no_name, token_name};
pub use path::walk;
pub use steps::step;
