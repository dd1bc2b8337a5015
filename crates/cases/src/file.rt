// The file of cases.
ghost use Rattle.std.specs.Prelude.{◌≡◌, ◌≤◌, IfSome, length};

use crate::lines::print_no_case;
use crate::reading::{Case, case_at};
use std::io;
use std::rt::{Env, Files};
use streams::{open_argument, read_all};

// Room for the file of cases.
const FILE: usize = 1_048_576;

// All of the file that argument 1 names, which is read to the front of `buf`, if the buffer has room for it.
pub fn read_cases<'a, R: Env + Files>(rt: &R, buf: &'a mut [u8]) -> Option<&'a [u8]>
    ensures { IfSome result (λ file. length file.now ≤ length buf.old) }
{
    let mut file = open_argument(rt, 1)?;
    let n = read_all(&mut file, buf)?;
    Some(&buf[..n])
}

// A buffer for the file. The `ensures` gives only the length, which lending it needs.
pub fn buffer() -> [u8; FILE]
    ensures { 1_048_576 ≡ length result }
{
    [0; FILE]
}

// One case after another, to the end of the file, is put to `run`, with the place where it begins. Where no case begins
// a line says so.
pub fn each_case<P: Print, F: FnMut(usize, Case) -> io::Result<()>>(
    rt: &P,
    file: &[u8],
    rooms: usize,
    texts: usize,
    mut run: F,
) -> io::Result<()>
    requires { F.IsAlwaysCallable run }
{
    let mut at = 0;
    while at < file.len() {
        let Some(case) = case_at(file, at, rooms, texts) else {
            return print_no_case(rt, at);
        };
        run(at, case)?;
        at = case.next;
    }
    Ok(())
}
