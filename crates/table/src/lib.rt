// What the words of the node table mean: the part of a text that a spelling names, names compared, and a member found
// by its name.
#![tactic(auto)]

pub mod find;
pub mod spellings;
