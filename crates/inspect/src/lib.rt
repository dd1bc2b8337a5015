// A patch inspected: read (SPECIFICATION 3) and shaped (SPECIFICATION 4) without a document, and its operations
// counted: SPECIFICATION 14.1, T-12.
//
// What is proved: on every input the answer is that of the definition `inspection_in` of crate `inspection`. The work
// area is all zero for its stated length and otherwise unchanged, or untouched where it was too short.
#![tactic(auto)]

mod answer; // what the call answers
mod call; // the call
mod counts; // how many of each operation
mod exports; // the call for C
mod stages; // its stages: the patch read, its shape, its operations counted

pub use answer::Answer;
pub use call::inspect;
pub use counts::Counts;
pub use exports::json_patch_inspect;
