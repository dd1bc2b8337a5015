// Text becomes a tree in the node table: RFC 8259, within the limits; SPECIFICATION 3. The two public functions are
// total. Their contract is that of the definition `read` of crate `spec`: its refusal, or its value as
// a tree in the table.
#![tactic(auto)]

// whole texts: the document, and the patch
mod texts;
// values, one level inside the other
mod values;
// the next item of a container
mod items;
// a member's name, and whether it is repeated
mod names;
// the text that is being read, and a container in it
mod containers;
// what is read of scalars and names
mod words;
// a value by its first byte
mod begins;

pub use texts::{read_document, read_patch};
pub use values::Value;
