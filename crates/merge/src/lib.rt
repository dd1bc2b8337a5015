// A merge patch applied to a document: RFC 7396; SPECIFICATION 18, T-02. `merge` is the whole library;
// `merge_read` serves the call that lists origins.
//
// What is proved: on every input the answer is that of the definition `merge_answer` of crate `merging`. What holds of
// the output and the work area in the plain call holds here too.
//
// The result is built in the scratch rows, in written order: every row that is laid down is part of it. So a result
// with too many nodes is known by the rows that it would take, and nothing overflows on the way.
#![tactic(auto)]

mod build; // rows of the result laid down
mod marks; // which members of the patch the target has
mod paths; // the members of the patch entered in the index
mod partner; // the member of the patch that has a name
mod steps; // what becomes of one member
mod objects; // two objects merged
mod trees; // the two trees merged
mod stages; // the stages of the call: two texts read, the trees merged, the result written
mod call; // the call
mod exports; // the call for C

pub use call::merge;
pub use exports::json_patch_merge;
pub use trees::merge_read;
