// What is printed. A write that fails is the answer's error.
use crate::reading::Case;
use crate::words::bytes_of;
use std::io;

// What a case's line begins with.
pub fn print_name<P: Print>(rt: &P, file: &[u8], c: Case) -> io::Result<()> {
    rt.write_all(bytes_of(file, c.name))?;
    print!(rt; ": ")
}

pub fn print_no_case<P: Print>(rt: &P, at: usize) -> io::Result<()> {
    println!(rt; "no case at byte {at}")
}
