// How far a run has come.
use undo_log::log::Log;

// How many rows the document has, and what is noted of the operations that made it.
#[derive(Clone, Copy, Debug, PartialEq, Eq)]
pub struct Logged {
    pub rows: usize,
    pub log: Log,
}
