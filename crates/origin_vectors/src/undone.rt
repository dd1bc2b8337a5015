// The call with an undo.
ghost use Rattle.std.specs.Prelude.{◌≤◌};

use crate::lines::{list_left_well, print_origins, print_short};
use crate::rooms::{ENTRIES, LINE, SHORT_BYTES, SHORT_ROWS, UNDO_LINE, UNLISTED};
use cases::{Case, UNWRITTEN, all_from, bytes_of, front};
use index;
use report::print_report;
use spec::limits;
use std::io;
use tape::layout;
use undo::UndoAnswer;
use undo_listing::apply_with_undo_listing;

// Whether the buffer is all zero and the undo's output unchanged behind the undo. Where not, a line says it.
fn undo_left_well<P: Print>(rt: &P, r: UndoAnswer, undo: &[u8], work: &[u8]) -> io::Result<bool> {
    if !all_from(work, 0, 0) {
        println!(rt; "the work area is not all zero")?;
        return Ok(false);
    }
    if !all_from(undo, r.undo, UNWRITTEN) {
        println!(rt; "the undo's output is changed behind the undo")?;
        return Ok(false);
    }
    Ok(true)
}

// The undo's line.
fn print_undo<P: Print>(rt: &P, name: &[u8], undo: &[u8]) -> io::Result<()> {
    rt.write_all(name)?;
    print!(rt; " undo: ")?;
    rt.write_all(undo)?;
    println!(rt; "")
}

// The case's lines. The call is lent the first bytes of both outputs, the first entries of the list, and a work area
// that holds rubbish.
pub fn run_undone<P: Print>(rt: &P, file: &[u8], c: Case, rubbish: u16) -> io::Result<()>
    requires first_bound { c.rooms.first ≤ 65_536 }
    requires second_bound { c.rooms.second ≤ 32_768 }
    requires third_bound { c.rooms.third ≤ 2_048 }
{
    let document = bytes_of(file, c.texts.first);
    let patch = bytes_of(file, c.texts.second);
    let mut output = [UNWRITTEN; LINE];
    let mut undo = [UNWRITTEN; UNDO_LINE];
    let mut origins = [UNLISTED; ENTRIES];
    let mut nodes = [[rubbish; 8]; layout::ROWS];
    let mut index = [rubbish; index::SLOTS];
    let mut work = [UNWRITTEN; limits::MAX_BYTES];
    let r = apply_with_undo_listing(
        document,
        patch,
        &mut output[..c.rooms.first],
        &mut undo[..c.rooms.second],
        &mut origins[..c.rooms.third],
        &mut nodes,
        &mut index,
        &mut work,
    );
    if !undo_left_well(rt, r, &undo, &work)? {
        return Ok(());
    }
    if !list_left_well(rt, r.answer, &output, &origins, &nodes, &index)? {
        return Ok(());
    }
    print_report(rt, r.answer, &mut output)?;
    if r.answer.number != 0 {
        return Ok(());
    }
    let name = bytes_of(file, c.name);
    print_undo(rt, name, front(&undo, r.undo))?;
    print_origins(rt, name, &origins)
}

// The call with a node table that is a record too short. With const parameters for the two lengths one function would
// do for this and the next, but the proof that each array is lent whole did not close.
pub fn short_undone<P: Print>(rt: &P) -> io::Result<()> {
    let mut output = [UNWRITTEN; 80];
    let mut undo = [UNWRITTEN; 80];
    let mut origins = [UNLISTED; 4];
    let mut nodes = [[1; 8]; SHORT_ROWS];
    let mut index = [1; index::SLOTS];
    let mut work = [1; limits::MAX_BYTES];
    let r = apply_with_undo_listing(
        b"[]",
        b"[]",
        &mut output,
        &mut undo,
        &mut origins,
        &mut nodes,
        &mut index,
        &mut work,
    );
    if !all_from(&undo, 0, UNWRITTEN) {
        return println!(rt; "the undo's output is changed");
    }
    print_short(rt, "undo", "work-a-record", r.answer, &mut output, &origins)
}

// The call with a buffer that is a byte too short.
pub fn short_buffer<P: Print>(rt: &P) -> io::Result<()> {
    let mut output = [UNWRITTEN; 80];
    let mut undo = [UNWRITTEN; 80];
    let mut origins = [UNLISTED; 4];
    let mut nodes = [[1; 8]; layout::ROWS];
    let mut index = [1; index::SLOTS];
    let mut work = [1; SHORT_BYTES];
    let r = apply_with_undo_listing(
        b"[]",
        b"[]",
        &mut output,
        &mut undo,
        &mut origins,
        &mut nodes,
        &mut index,
        &mut work,
    );
    if !all_from(&undo, 0, UNWRITTEN) {
        return println!(rt; "the undo's output is changed");
    }
    print_short(rt, "undo", "buffer-a-byte", r.answer, &mut output, &origins)
}
