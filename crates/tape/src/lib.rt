// The node table: a forest in preorder, one row of eight fields a node, in lent memory.
//
// A node's span says how many nodes are below it, at every depth: its first child stands in the next row, and the
// tree behind it in the row that is 1 + span further on. A spelling says where a text stands, so that nothing is
// copied until it is written.
#![tactic(auto)]

// the numbers of the table
pub mod layout;
// a node's fields
pub mod fields;
// nodes loaded, stored, moved and cleared
pub mod moves;
// nodes by their rows
pub mod nodes;
