// The node table's numbers. specs/Layout.antt has the same.

// A node: eight fields of 16 bits, by their positions.
pub type Node = [u16; 8];

// The document and the patch.
pub type Texts<'a> = [&'a [u8]; 2];

// Where its name begins, and the name's bytes.
pub const NAME_START: usize = 0;

pub const NAME_LENGTH: usize = 1;

// Where a number's or a string's text begins, and its bytes.
pub const START: usize = 2;

pub const LENGTH: usize = 3;

// How many nodes are below it, at every depth.
pub const SPAN: usize = 4;

// A hash of the name's text.
pub const HASH: usize = 5;

// Its kind, and how and where its text and its name are read.
pub const TAGS: usize = 6;

pub const ORIGIN: usize = 7;

// A row without a node.
pub const NO_NODE: Node = [0; 8];

// A node's kind, numbered as `tag` of the definitions numbers a label; from ARRAY on they are containers.
pub const NULL: u16 = 0;

pub const TRUE: u16 = 1;

pub const FALSE: u16 = 2;

pub const NUMBER: u16 = 3;

pub const STRING: u16 = 4;

pub const ARRAY: u16 = 5;

pub const OBJECT: u16 = 6;

// How a text is read where it stands: not at all, for it is empty; a JSON string without escapes, and with them; a
// pointer's token inside a JSON string; a number.
pub const NO_TEXT: u16 = 0;

pub const PLAIN_STRING: u16 = 1;

pub const ESCAPED_STRING: u16 = 2;

pub const TOKEN: u16 = 3;

pub const NUMERAL: u16 = 4;

// Which text it stands in.
pub const IN_DOCUMENT: u16 = 0;

pub const IN_PATCH: u16 = 1;

// How many values a field can have, and the parts of TAGS.
pub const VALUES: usize = 65536;

pub const KINDS: u16 = 8;

pub const FORMS: u16 = 8;

pub const SOURCES: u16 = 2;

// The table's rows: where the document begins, the patch, and scratch; and how many there are.
pub const DOCUMENT: usize = 0;

pub const PATCH: usize = 2048;

pub const SCRATCH: usize = 4096;

pub const ROWS: usize = 6144;
