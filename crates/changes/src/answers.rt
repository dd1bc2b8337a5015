// What the functions of this crate take. They answer how many rows the document has from now on, or a fault; then
// nothing has changed.

// A change at a location. The new value of an addition or a replacement is the tree in a row behind the document's.
#[derive(Clone, Copy)]
pub enum Change {
    Add(usize),
    Remove,
    Replace(usize),
}
