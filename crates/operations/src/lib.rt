// The six operations in the node table, and the run of a patch: SPECIFICATION 6.
//
// What is proved: for a document (`Document` of changes) and a patch that was read and whose shape is right, `run`
// answers as the definitions' run of its operations does, each with the limits judged. Either the document is then
// the result and the patch's rows are as they were, or the answer is the first refusal with its operation, its place
// and its pointer.
//
// What a caller should know: `run` is total. After a refusal, and where the table holds no document and no patch, the
// nodes are free. So is the index after every answer.
#![tactic(auto)]

mod answers; // what an operation answers
mod stamps; // nodes that get another origin
mod transfers; // a value moved and copied; crate shift moves it within one array
pub mod perform; // one operation of the patch
mod runs; // the operations one after another

pub use answers::{Failure, Pointer, Stop};
pub use runs::run;
pub use stamps::stamp;
pub use transfers::set_aside;
