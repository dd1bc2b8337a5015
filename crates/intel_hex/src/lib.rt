// A text as Intel HEX, written and read: SPECIFICATION 13, T-07.
//
// What is proved: on every input the answer is that of the definitions `write_answer` and `read_answer` in
// specs/Answer, and the output afterwards begins with the written text and is otherwise unchanged. specs/Claims says
// what the definitions come to: reading what was written returns the text, every record that is written has sum zero,
// and the reader accepts exactly the texts of records that follow on from address 0.
#![tactic(auto)]

mod refusal; // why a call is refused
mod answer; // what a call answers
mod digits; // hexadecimal digits
mod writing; // a text measured and written as records
mod lines; // a line read
mod reading; // a text of lines measured, and its data written
mod calls; // the two calls
pub mod exports; // the two calls for C

pub use answer::Answer;
pub use calls::{read_hex, write_hex};
