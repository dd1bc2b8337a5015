// The members of objects by their names: a digital search tree. The object's row and the hash of the name choose the
// first slot of a search path. From there on each row on the path has two branches, and the next bit of the name
// chooses one. A lookup takes one step for each row on the path.
//
// The index stands in a lent list of its own, `index: &mut [u16]`: the slots where paths begin, two branches of each
// row, and each row's parent. Rows are counted from a base. The list need not be empty at first: a path leads through
// growing rows only, so that it ends whatever the slots hold.
#![tactic(auto)]

// the slots
mod slots;
// the bits of a name
mod bits;
// a member entered
mod ways;
// all members of a tree entered, and one found again
mod members;

pub use members::{index_tree, lookup};
pub use slots::{SLOTS, empty};
pub use ways::{enter, enter_by_hash};
