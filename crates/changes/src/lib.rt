// The document in the node table changed at a location: a value added, removed or replaced where a pointer names a
// place. The document is the first `used` rows of the table, no more and no less than its nodes.
//
// What is proved: given a document that the table holds (`Document` of specs), a pointer and a change, `change_at`
// answers as the definitions of the change do, with the limits judged. Then the document is the result, or the answer
// is the refusal with its place. Whatever the table holds, no row from the patch's first on changes, and a
// refusal changes nothing.
//
// What a caller should know: every public function is total. The limits are judged before anything moves, 5 before 6.
// The new value of an addition or a replacement stands in rows behind the document's, and is copied from there.
#![tactic(auto)]

pub mod answers; // what the functions below take
mod parent; // a node whose children change
mod trees; // a tree put among the children of a node, and taken out
mod children; // a node's child added, removed and replaced by its token
mod alter; // a change at the parent of a location
mod paths; // a change at a location

pub use answers::Change;
pub use paths::change_at;
pub use trees::size;
