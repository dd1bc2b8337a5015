// The lexical layer of JSON text: blanks, literals, numbers, characters, strings and names, each read at a cursor
// that moves on by value. Every public function is total: a cursor may stand anywhere, past the end of the text too.
// Each contract is an equation with a definition of crate `spec`; specs/Answers.antt says what outcome each answer
// stands for. That of `verbatim_end` is a relation, in specs/Verbatim.antt. The classes of bytes in strings are in
// crate `byte_class`; specs/ByClass.antt says what a character is by them.
#![tactic(auto)]

pub mod cursor; // a place in a text, what reading there answers, and the byte there
pub mod blanks; // Cursor::blanks
pub mod literals; // Cursor::null_literal, true_literal and false_literal
pub mod numbers; // Cursor::number
pub mod characters; // Cursor::character
pub mod strings; // Cursor::quoted, and Cursor::name, which keeps a hash too
pub mod hash; // the hash of a text
mod escapes; // a character that is written as an escape
mod utf8; // a character of two to four bytes
mod verbatim; // characters that stand in a text as they are written

pub use characters::Character;
pub use cursor::{ByteRead, Cursor, byte_in, peek};
pub use hash::mix;
pub use strings::{Name, Quoted, stands_for_itself};
pub use verbatim::verbatim_end;
