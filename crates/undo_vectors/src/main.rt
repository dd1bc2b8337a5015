// Every committed case of undos, run through the library. It prints a line for each: its name, and what the patch tool
// would print of the patched document if it lent as many bytes as the case says. Where the patch is applied, there are
// two more lines: the undo, and what the patch tool would print of the undo on the patched text. The stored output is
// what the second program answers, so that each run compares the two.
#![tactic(auto)]

use cases::{
    Case, UNWRITTEN, all_from, buffer, bytes_of, each_case, front, left_well, print_name,
    read_cases,
};
use index;
use json_patch::apply;
use report::print_report;
use spec::limits;
use std::io;
use tape::fields::narrow;
use tape::layout;
use tape::layout::Node;
use undo::{UndoAnswer, apply_with_undo};

const OUTPUT: usize = 65_536;

// The output, and the newline.
const LINE: usize = OUTPUT + 1;

// The longest undo.
const UNDO: usize = 32_768;

// Whether the call has left the buffer all zero, and both outputs unchanged behind their texts. Where not, a line says
// it.
fn both_left_well<P: Print>(
    rt: &P,
    nodes: &[Node],
    index: &[u16],
    work: &[u8],
    output: &[u8],
    undo: &[u8],
    r: UndoAnswer,
) -> io::Result<bool> {
    if !all_from(work, 0, 0) {
        println!(rt; "the work area is not all zero")?;
        return Ok(false);
    }
    if !left_well(rt, nodes, index, output, r.answer.length)? {
        return Ok(false);
    }
    if !all_from(undo, r.undo, UNWRITTEN) {
        println!(rt; "the undo's output is changed behind the undo")?;
        return Ok(false);
    }
    Ok(true)
}

// The undo on the patched text, as the patch tool would print it.
fn run_back(rt: &impl Print, text: &[u8], undo: &[u8]) -> io::Result<()> {
    let mut output = [UNWRITTEN; LINE];
    let mut nodes = [[0; 8]; layout::ROWS];
    let mut index = [0; index::SLOTS];
    let answer = apply(text, undo, &mut output[..OUTPUT], &mut nodes, &mut index);
    print_report(rt, answer, &mut output)
}

// The undo's line, and that of what it gives back.
fn print_undone(rt: &impl Print, name: &[u8], text: &[u8], undo: &[u8]) -> io::Result<()> {
    rt.write_all(name)?;
    print!(rt; " undo: ")?;
    rt.write_all(undo)?;
    println!(rt; "")?;
    rt.write_all(name)?;
    print!(rt; " back: ")?;
    run_back(rt, text, undo)
}

// The case's lines, with another text in them where there is less room than the case asks for, or where the call has
// not left the memory as it must. Before the call the work area holds rubbish. The case's rooms are those of the output
// and of the undo's output.
fn run_case(rt: &impl Print, file: &[u8], c: Case, rubbish: u16) -> io::Result<()> {
    let document = bytes_of(file, c.texts.first);
    let patch = bytes_of(file, c.texts.second);
    print_name(rt, file, c)?;
    let mut output = [UNWRITTEN; LINE];
    let mut undo = [UNWRITTEN; UNDO];
    let Some(lent) = output[..OUTPUT].get_mut(..c.rooms.first) else {
        return println!(rt; "there is less room");
    };
    let Some(lent_undo) = undo.get_mut(..c.rooms.second) else {
        return println!(rt; "there is less room");
    };
    let mut nodes = [[rubbish; 8]; layout::ROWS];
    let mut index = [rubbish; index::SLOTS];
    let mut work = [UNWRITTEN; limits::MAX_BYTES];
    let r = apply_with_undo(
        document, patch, lent, lent_undo, &mut nodes, &mut index, &mut work,
    );
    if !both_left_well(rt, &nodes, &index, &work, &output, &undo, r)? {
        return Ok(());
    }
    print_report(rt, r.answer, &mut output)?;
    if r.answer.number != 0 {
        return Ok(());
    }
    let text = front(&output, r.answer.length);
    print_undone(rt, bytes_of(file, c.name), text, front(&undo, r.undo))
}

// The call with a buffer that is a byte too short. No case can say this. The answer is 1, before anything else, and
// both outputs are untouched.
fn run_short(rt: &impl Print) -> io::Result<()> {
    let mut output = [UNWRITTEN; 80];
    let mut undo = [UNWRITTEN; 80];
    let mut nodes = [[1; 8]; layout::ROWS];
    let mut index = [1; index::SLOTS];
    let mut work = [1; limits::MAX_BYTES - 1];
    let r = apply_with_undo(
        b"[]",
        b"[]",
        &mut output,
        &mut undo,
        &mut nodes,
        &mut index,
        &mut work,
    );
    print!(rt; "buffer-a-byte-short: ")?;
    if !all_from(&output, 0, UNWRITTEN) {
        return println!(rt; "the output is changed");
    }
    if !all_from(&undo, 0, UNWRITTEN) {
        return println!(rt; "the undo's output is changed");
    }
    if !all_from(&work, 0, 1) {
        return println!(rt; "the buffer is changed");
    }
    print_report(rt, r.answer, &mut output)
}

fn main(rt: HostRuntime) -> io::Result<()> {
    let mut room = buffer();
    let Some(file) = read_cases(&rt, &mut room) else {
        return println!(rt; "unreadable");
    };
    // what the work area holds before a call differs from case to case
    each_case(&rt, file, 2, 2, |at, c| run_case(&rt, file, c, narrow(at)))?;
    run_short(&rt)
}
