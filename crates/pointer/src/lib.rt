// JSON Pointers, RFC 6901, read off the bytes of the JSON string that a pointer stands in. A part is the bytes
// between the string's quotation marks; a token is given by its place in the part, and nothing is copied. Every
// public function is total, on any bytes and at any place.
#![tactic(auto)]

pub mod answers; // what the functions below answer
pub mod tokens; // from token to token, and whether a text is a pointer
pub mod indices; // a token as an index of an array
pub mod prefixes; // whether a pointer's tokens begin another's

pub use answers::{First, Index, Token};
pub use indices::index;
pub use prefixes::proper_prefix;
pub use tokens::{first, is_pointer, token, token_part};
