// Two values compared, with the count of the names that are compared: SPECIFICATION 17.2. T-10: "the target's members
// in order, each against the patch value's names from the first until one matches". Members are found in step or by
// the index, so that the work is linear. The number of names compared for a member is its place, which is noted
// beforehand.
#![tactic(auto)]

mod places; // the place of each node among its siblings
mod values; // two values compared

pub use places::note_places;
pub use values::{Comparison, counted};
