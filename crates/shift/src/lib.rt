// A value moved within one array of the document in the node table: the quick way of a move.
//
// What is proved: where `shift_within` says yes, a document that the table held (`Document` of changes) is then what
// the definitions' move makes of it, in as many rows, and the limits are kept. Where it says no, nothing has changed.
// Whatever the table holds, the rows of the patch are as they were.
//
// What a caller should know: `shift_within` is total. A no is no refusal: the move may be possible in another way. Not
// every move within one array is done; that of an element to `-` is not. After a yes the scratch rows are free, and so
// are the document's where the table held none.
#![tactic(auto)]

mod within; // rows that change places, two pointers that name elements of one array, and the move

pub use within::shift_within;
