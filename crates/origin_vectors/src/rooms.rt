// How much is lent: the first bytes of the output and of the undo's output, and the first entries of the list. Behind
// them each has at least one more, which no call may change.

use spec::limits;
use tape::layout;

pub const OUTPUT: usize = 65_536;

pub const UNDO: usize = 32_768;

pub const LIST: usize = 2_048;

// Each of them, and one more: in the output that is for the newline.
pub const LINE: usize = OUTPUT + 1;

pub const UNDO_LINE: usize = UNDO + 1;

pub const ENTRIES: usize = LIST + 1;

// What the list holds before a call: more than any operation's number.
pub const UNLISTED: u16 = 65_535;

// A record less than the work area has, and a byte less than the buffer has.
pub const SHORT_ROWS: usize = layout::ROWS - 1;

pub const SHORT_BYTES: usize = limits::MAX_BYTES - 1;
