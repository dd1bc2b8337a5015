// The numbers of the definitions, for the code. The definitions are in specs/.
#![tactic(auto)]

pub mod limits;
pub mod refusal;
