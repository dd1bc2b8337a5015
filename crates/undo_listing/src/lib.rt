// A patch applied, the patch that takes it back written beside the document, and the origin of each value listed:
// SPECIFICATION 16 and 19, T-09 and T-11. `apply_with_undo_listing` is the whole library.
//
// What is proved: on every input the answer and the list are those of the definition `undo_answer` of crate `origin`.
// The two outputs and the list afterwards begin with what is written and are otherwise unchanged. What holds of the
// work area and the buffer in the call with an undo holds here too.
#![tactic(auto)]

mod call; // the call
mod exports; // the call for C
mod stages; // its stages: two texts read, the patch run, the result, the list and the undo written

pub use call::apply_with_undo_listing;
pub use exports::json_patch_apply_with_undo_origins;
