// The shape of a patch: SPECIFICATION 4. Nothing is stored: a member of an operation is found again when it runs.
//
// What is proved: for a patch that the table holds, `shape_of` answers as the definitions do, with the refusal and
// the operation.
//
// What a caller should know: every public function is total and changes nothing. Its contract also says what it
// answers for a table that holds no tree, and what is free there.
#![tactic(auto)]

mod all_members; // the four members of an operation, found in one pass
mod kinds; // the kinds of operations, by their names
mod members; // a member of an operation, by its name
mod operation; // one operation
mod patch; // the whole patch

pub use all_members::{Members, members_of};
pub use kinds::{Kind, Uses, kind_named, uses_of};
pub use members::{string_in, string_member};
pub use operation::{kind_of, others_right};
pub use patch::{Misshapen, shape_of};
