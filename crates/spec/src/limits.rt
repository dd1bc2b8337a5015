// The numbers that bound the work. specs/Limits.antt has the same.

// Bytes of a document, and of a patch.
pub const MAX_BYTES: usize = 32_768;

// Nested containers.
pub const MAX_DEPTH: u32 = 32;

// Values in a document, and in a patch text.
pub const MAX_NODES: usize = 2_048;

// Bytes of a number.
pub const MAX_NUMBER: usize = 128;

// The size of a number's written exponent.
pub const MAX_EXPONENT: u32 = 9_999;

// Operations of a patch.
pub const MAX_OPERATIONS: usize = 256;
