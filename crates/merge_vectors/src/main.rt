// Every committed case of merge patches, run through the library. It prints a line for each: its name, and what the
// patch tool would print of its answer, with as many bytes of output lent as the case says. The stored output is what
// the second program answers, so that each run compares the two.
#![tactic(auto)]

use cases::{
    Case, UNWRITTEN, all_from, buffer, bytes_of, each_case, left_well, print_name, read_cases,
};
use index;
use merge::merge;
use report::print_report;
use std::io;
use tape::fields::narrow;
use tape::layout;

const OUTPUT: usize = 65_536;

// The output, and the newline.
const LINE: usize = OUTPUT + 1;

// The case's line, with another text in it where there is less room than the case asks for, or where the call has not
// left the memory as it must. Before the call the work area holds rubbish. The programs for other calls have the same
// lines around theirs: the crate `cases`, which they share, knows no `Answer`.
fn run_case(rt: &impl Print, file: &[u8], c: Case, rubbish: u16) -> io::Result<()> {
    let document = bytes_of(file, c.texts.first);
    let patch = bytes_of(file, c.texts.second);
    print_name(rt, file, c)?;
    let mut output = [UNWRITTEN; LINE];
    let Some(lent) = output[..OUTPUT].get_mut(..c.rooms.first) else {
        return println!(rt; "there is less room");
    };
    let mut nodes = [[rubbish; 8]; layout::ROWS];
    let mut index = [rubbish; index::SLOTS];
    let answer = merge(document, patch, lent, &mut nodes, &mut index);
    if left_well(rt, &nodes, &index, &output, answer.length)? {
        print_report(rt, answer, &mut output)?;
    }
    Ok(())
}

// The call with a node table that is a record too short. No case can say this. The answer is 1, before anything else,
// and the output is untouched.
fn run_short(rt: &impl Print) -> io::Result<()> {
    let mut output = [UNWRITTEN; 80];
    let mut nodes = [[1; 8]; layout::ROWS - 1];
    let mut index = [1; index::SLOTS];
    let answer = merge(b"[]", b"[]", &mut output, &mut nodes, &mut index);
    print!(rt; "work-a-record-short: ")?;
    if !all_from(&output, 0, UNWRITTEN) {
        return println!(rt; "the output is changed");
    }
    print_report(rt, answer, &mut output)
}

fn main(rt: HostRuntime) -> io::Result<()> {
    let mut room = buffer();
    let Some(file) = read_cases(&rt, &mut room) else {
        return println!(rt; "unreadable");
    };
    // what the work area holds before a call differs from case to case
    each_case(&rt, file, 1, 2, |at, c| run_case(&rt, file, c, narrow(at)))?;
    run_short(&rt)
}
