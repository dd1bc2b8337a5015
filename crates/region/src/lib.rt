// A region agreed with a pack maker: SPECIFICATION 15, T-05. It is a pointer's text in UTF-8, as it is given with
// the call, and no JSON string.
//
// What is proved: the rule for makers' patches and the answer of a call with a region are definitions, and
// specs/Claims says what they come to. `is_region` judges a region, and for a patch that the table holds `shape_within`
// answers as the definitions do. Nothing is copied.
#![tactic(auto)]

mod compare; // a region and the paths of operations
pub mod within; // the shape of a patch with the rule for makers

pub use compare::is_region;
pub use within::shape_within;
