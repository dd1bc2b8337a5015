// A patch applied, and the patch that takes it back written beside the document: SPECIFICATION 16, T-09.
// `apply_with_undo` is the whole library; `run`, `Logged` and `Written` serve the call that lists origins too.
//
// What is proved: on every input the answer is that of the definition `undo_answer` of crate `reversal`. Each output
// afterwards begins with its text and is otherwise unchanged. The work area and the buffer are all zero for their
// stated lengths and otherwise unchanged, or untouched where one was too short. Crate `reversal` proves that the undo
// takes the patch back.
//
// What a caller of `run` should know: it is total. The patch's rows are as they were. After a refusal, and where the
// table holds no document and no patch, the other nodes and the buffer are free, and so is a log that is answered. So
// is the index after every answer.
#![tactic(auto)]

mod cuts; // a pointer cut at its last slash
mod logged; // how far a run has come
mod mending; // what takes back a value that is put in
mod moving; // a move
mod steps; // one operation of the patch
mod runs; // the operations one after another
mod answer; // what the call answers
mod stages; // the stages of the call
mod call; // the call
mod exports; // the call for C

pub use answer::{UndoAnswer, Written, without};
pub use call::apply_with_undo;
pub use exports::json_patch_apply_with_undo;
pub use logged::Logged;
pub use runs::run;
