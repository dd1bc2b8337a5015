// Reading a string again, with no copy. After it was read, a string stands as a part: its bytes between the quotation
// marks, in the document or in the patch, or those of a pointer's token among them. A part's form says how it is
// read: 1 a string without escapes, 2 any string, 3 a pointer's token in a string; any other form says the empty
// text. Every public function is total, and its contract is an equation.
#![tactic(auto)]

pub mod letters; // one character of what a part says
pub mod compare; // whether two texts are the same
pub mod hash; // the hash of a text
pub mod lengths; // how long a text is when it is written
pub mod write; // texts laid down in the output
mod runs; // a run of characters that are written as they are read
mod escapes; // a character that is written as an escape

pub use compare::{same_ascii, same_text};
pub use hash::hash_text;
pub use lengths::written_length;
pub use letters::letter;
pub use write::write_text;
