// A tree of the node table written as text: SPECIFICATION 8. `fits` says whether an output has room for the
// text before a byte of it is written. `write` lays the text down in the output, one value after another. It calls
// itself on nested containers, and the levels fall; their scalars are written in the loop.
//
// What is proved: of a node that the table holds (`NodeHeld` of table) and that nests at most `levels` containers,
// `fits` answers whether the text of the definitions has at most `room` bytes, and `write` lays that text down;
// behind it the output is as it was. proofs/CallerLaws has it in these words.
//
// What a caller should know: both are total. Where the output is too short, `write` fills it with the text's first
// bytes; so ask `fits` first. Where the table holds no such node, the answer of `fits` is free; `write` then lays
// down some bytes at the front of the output, answers how many, and leaves the rest as it was.
#![tactic(auto)]

mod values; // a value of the table: its length, and its text
mod room; // whether there is room for a value's text
mod lengths; // how long the pieces of a text are
mod pieces; // the pieces of a text laid down
mod output; // bytes laid down, as many as there is room for
mod copies; // bytes copied into the output

pub use output::{put_byte, put_part};
pub use room::fits;
pub use values::{measure, write};
