// Every committed case of two texts, compared by the library. Each prints a line: its name, and the verdict with the
// count of names, or the refusal. The stored output is what the second program answers, so each run compares the two.
#![tactic(auto)]

use cases::{Case, buffer, bytes_of, each_case, print_name, read_cases, work_clear};
use compare::{Answer, compare};
use index;
use std::io;
use tape::fields::narrow;
use tape::layout;

// The answer's line. A refusal's is as the patch tool prints it.
fn print_answer(rt: &impl Print, answer: Answer) -> io::Result<()> {
    if answer.number != 0 {
        return println!(rt;
            "refused {} text {} op 0 place {} pointer 0",
            answer.number, answer.text, answer.place
        );
    }
    let verdict = if answer.equal { "equal" } else { "different" };
    println!(rt; "{verdict} {}", answer.names)
}

// The case's line, with another text in it where the call has not left the memory as it must. Before the call, the work
// area holds the case's number everywhere, as rubbish.
fn run_case(rt: &impl Print, file: &[u8], c: Case) -> io::Result<()> {
    let target = bytes_of(file, c.texts.first);
    let other = bytes_of(file, c.texts.second);
    let rubbish = narrow(c.rooms.first);
    print_name(rt, file, c)?;
    let mut nodes = [[rubbish; 8]; layout::ROWS];
    let mut index = [rubbish; index::SLOTS];
    let answer = compare(target, other, &mut nodes, &mut index);
    if !work_clear(&nodes, &index) {
        return println!(rt; "the work area is not all zero");
    }
    print_answer(rt, answer)
}

// The call with a node table one record too short, which no case can express: the answer is 1, before anything else.
fn run_short(rt: &impl Print) -> io::Result<()> {
    let mut nodes = [[1; 8]; layout::ROWS - 1];
    let mut index = [1; index::SLOTS];
    let answer = compare(b"[]", b"[]", &mut nodes, &mut index);
    print!(rt; "work-a-record-short: ")?;
    print_answer(rt, answer)
}

fn main(rt: HostRuntime) -> io::Result<()> {
    let mut room = buffer();
    let Some(file) = read_cases(&rt, &mut room) else {
        return println!(rt; "unreadable");
    };
    each_case(&rt, file, 1, 2, |_, c| run_case(&rt, file, c))?;
    run_short(&rt)
}
