// Two JSON texts compared: equal or different, by the equality of SPECIFICATION 7, and how many names were compared
// for it: SPECIFICATION 17, T-10.
//
// What is proved: on every input the answer is that of the definition `comparison_in` of crate `comparison`. The work
// area is all zero for its stated length and otherwise unchanged, or untouched where it was too short.
#![tactic(auto)]

mod answer; // what the call answers
mod call; // the call
mod exports; // the call for C
mod stages; // its stages: two texts read, their values compared

pub use answer::Answer;
pub use call::compare;
pub use exports::json_patch_compare;
