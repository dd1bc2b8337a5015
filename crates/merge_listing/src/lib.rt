// A merge patch applied to a document, and the origin of each value listed: SPECIFICATION 19, T-11. `merge_listing`
// is the whole library.
//
// What is proved: on every input the answer and the list are those of the definition `merge_answer` of crate `origin`.
// The output and the list afterwards begin with what is written and are otherwise unchanged. What holds of the work
// area in the plain call holds here too.
#![tactic(auto)]

mod call; // the call
mod exports; // the call for C
mod stages; // its stages: two texts read, the trees merged, the result written and listed
mod stamps; // the origins that nodes bear before the merge

pub use call::merge_listing;
pub use exports::json_patch_merge_origins;
