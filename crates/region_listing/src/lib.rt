// A maker's patch applied within a region, and the origin of each value listed: SPECIFICATION 15 and 19, T-05 and
// T-11. `apply_within_listing` is the whole library.
//
// What is proved: on every input the answer and the list are those of the definition `answer_within` of crate
// `origin_within`. What holds of the output, the list and the work area in the call without a region holds here too.
#![tactic(auto)]

mod call; // the call
mod exports; // the call for C
mod stages; // its stages: two texts read, the region judged, the patch run, the result written and listed

pub use call::apply_within_listing;
pub use exports::json_patch_apply_within_origins;
