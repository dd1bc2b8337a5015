// A JSON Patch applied to a JSON document: RFC 6902; SPECIFICATION 1 to 8. `apply` is the whole library.
//
// What is proved: on every input the answer is that of the definition `answer` of crate `spec`. The output afterwards
// begins with the written text and is otherwise unchanged. The work area is all zero for its stated length and
// otherwise unchanged, or untouched where it was too short. For two makers' patches in regions of their own,
// specs/Region says what the call answers on a shuffle of them.
#![tactic(auto)]

mod answer; // what the call answers
mod call; // the call
mod exports; // the call for C
mod texts; // its two texts read
mod work; // the work area
mod stages; // its stages: two texts read, the patch run, the result written

pub use answer::{Answer, misshapen, refusal_answer, refused, stopped, success, unread};
pub use call::apply;
pub use exports::json_patch_apply;
pub use stages::write_out;
pub use texts::{Unread, check_lengths, read_texts};
pub use work::{clear, suffices};
