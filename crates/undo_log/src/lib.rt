// The log of an undo: SPECIFICATION 16, T-09. While a patch runs, each operation's undo is laid down from the end of
// a buffer towards its front, so that the last operation's stands first. Counts go on where the buffer is full.
//
// What is proved: where the log is that of some operations (`Noted` of specs/Log), it is that of one more after
// `note`, and what it says in the end is true of the undo's value: whether it could be read back, and its text.
//
// What a caller should know: every public function is total. Where no operations are noted, the log and the buffer
// are free.
#![tactic(auto)]

pub mod log; // what is noted of the undo
pub mod note; // one more operation of it
mod lengths; // how long the pieces of its text are
mod pieces; // those pieces laid down
mod digits; // a position's digits

pub use log::Log;
