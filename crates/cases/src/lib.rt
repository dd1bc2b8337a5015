// Committed cases: a file of them is read, and one case after another is taken from it; lent memory is checked after a
// call; lines are printed. Each program that runs cases puts them to a call of its own.
//
// What is proved: on every input, a case is what the definition `case_at` (specs/CaseFile) gives, a part of the file is
// what `cut` gives, and a check of a buffer answers as `all_are` says (specs/Same). A case ends behind its beginning,
// and its parts lie in the file (proofs/PlaceLaws). No contract speaks of what is read from the file or of what is
// printed.
#![tactic(auto)]

mod calls; // what a call must leave
mod checks; // whether a buffer holds the same value everywhere
mod file; // the file of cases
mod lines; // what is printed
mod numbers; // the numbers of a header
mod reading; // a case in the file of cases
mod words; // words and parts of the file

pub use calls::{UNWRITTEN, left_well};
pub use checks::{all_clear, all_from, work_clear};
pub use file::{buffer, each_case, read_cases};
pub use lines::{print_name, print_no_case};
pub use numbers::Three;
pub use reading::{Case, case_at, case_of};
pub use words::{Part, Taken, bytes_of, front, word_at};
