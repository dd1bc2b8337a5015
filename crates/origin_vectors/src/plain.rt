// The calls without an undo.
ghost use Rattle.std.specs.Prelude.{◌≤◌};

use crate::lines::{list_left_well, print_origins, print_short};
use crate::rooms::{ENTRIES, LINE, SHORT_ROWS, UNLISTED};
use cases::{Case, UNWRITTEN, bytes_of};
use index;
use json_patch::Answer;
use report::print_report;
use std::io;
use tape::layout;
use tape::layout::Node;

// The case's lines. The call is lent the first bytes of the output, the first entries of the list, and a work area that
// holds rubbish.
pub fn run_plain<P, F>(rt: &P, file: &[u8], c: Case, rubbish: u16, call: F) -> io::Result<()>
where
    P: Print,
    F: FnOnce(&mut [u8], &mut [u16], &mut [Node], &mut [u16]) -> Answer,
    requires first_bound { c.rooms.first ≤ 65_536 }
    requires third_bound { c.rooms.third ≤ 2_048 }
    requires callable { F.IsAlwaysCallable call }
{
    let mut output = [UNWRITTEN; LINE];
    let mut origins = [UNLISTED; ENTRIES];
    let mut nodes = [[rubbish; 8]; layout::ROWS];
    let mut index = [rubbish; index::SLOTS];
    let answer = call(
        &mut output[..c.rooms.first],
        &mut origins[..c.rooms.third],
        &mut nodes,
        &mut index,
    );
    if !list_left_well(rt, answer, &output, &origins, &nodes, &index)? {
        return Ok(());
    }
    print_report(rt, answer, &mut output)?;
    if answer.number != 0 {
        return Ok(());
    }
    print_origins(rt, bytes_of(file, c.name), &origins)
}

// The call with a node table that is a record too short.
pub fn short_plain<P, F>(rt: &P, name: &str, call: F) -> io::Result<()>
where
    P: Print,
    F: FnOnce(&mut [u8], &mut [u16], &mut [Node], &mut [u16]) -> Answer,
    requires { F.IsAlwaysCallable call }
{
    let mut output = [UNWRITTEN; 80];
    let mut origins = [UNLISTED; 4];
    let mut nodes = [[1; 8]; SHORT_ROWS];
    let mut index = [1; index::SLOTS];
    let answer = call(&mut output, &mut origins, &mut nodes, &mut index);
    print_short(rt, name, "work-a-record", answer, &mut output, &origins)
}
