// A JSON Pointer as the fragment of a URI, written and read: RFC 6901, section 6; SPECIFICATION 12, T-14. A link is
// `#` and the fragment.
//
// What is proved: on every input the answer is that of the definitions `write_answer` and `read_answer` in
// specs/Answer, and the output afterwards begins with the written text and is otherwise unchanged. specs/Claims says
// what the definitions come to: reading what was written returns the pointer, every accepted link names a pointer, and
// two links with the same pointer differ only in percents.
#![tactic(auto)]

mod refusal; // why a call is refused
pub mod answer; // what a call answers
mod scan; // octets looked at one after another: UTF-8, and a pointer's syntax
mod octets; // the octets of a fragment
mod kept; // the bytes that a fragment holds as they are
mod writing; // a link measured and written
pub mod calls; // the two calls
pub mod exports; // the two calls for C

pub use answer::Answer;
pub use calls::{read_link, write_link};
pub use scan::{NotPointer, verdict_of};
