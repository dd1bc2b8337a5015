// A maker's patch applied within a region: SPECIFICATION 15, T-05. `apply_within` is the whole library.
//
// What is proved: on every input the answer is that of the definition `answer_within` of crate `region`; and what keeps
// the rule for makers gets the answer of a plain patch (specs/Claims there). What holds of the output and the work area
// in the plain call holds here too.
#![tactic(auto)]

mod call; // the call
mod exports; // the call for C
mod stages; // its stages: two texts read, the region judged, the patch run, the result written

pub use call::apply_within;
pub use exports::json_patch_apply_within;
