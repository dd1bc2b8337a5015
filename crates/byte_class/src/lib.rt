// The classes of bytes in a JSON string, in one table; and what a reader of strings needs beside a byte's class.
#![tactic(auto)]

mod class_table; // the table of 256 classes
mod column_table; // each byte's column: its class, or more where a class is not enough

pub use class_table::classes;
pub use column_table::columns;
