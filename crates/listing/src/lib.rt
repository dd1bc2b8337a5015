// A JSON Patch applied to a JSON document, and the origin of each value listed: SPECIFICATION 19, T-11. `apply_listing`
// is the whole library; the other public functions serve the other calls that list origins.
//
// What is proved: on every input the answer and the list are those of the definition `answer` of crate `origin`. The
// output and the list afterwards begin with what is written and are otherwise unchanged. The work area is left as the
// plain call leaves it.
#![tactic(auto)]

mod call; // the call
mod exports; // the call for C
mod lists; // the origins of rows, put in a list
mod stages; // its stages: two texts read, the patch run, the result written and listed
mod stamps; // the origins that nodes bear before the run

pub use call::apply_listing;
pub use exports::json_patch_apply_origins;
pub use lists::list_origins;
pub use stages::run_listed;
pub use stamps::stamp_texts;
