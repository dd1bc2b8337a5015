// Every committed case of Intel HEX, run through the library: a text is written as Intel HEX, and taken as Intel HEX
// and read. Each of the two prints a line: the case's name, and the text, or the number of the refusal and its place.
// The stored output is what the second program answers, so each run compares the two.
#![tactic(auto)]

use cases::{Case, all_from, buffer, bytes_of, each_case, front, read_cases};
use intel_hex::{Answer, read_hex, write_hex};
use std::io;

// Room for the longest text as records: 180,236 bytes.
const OUTPUT: usize = 180_240;

// What the output holds before a call.
const UNWRITTEN: u8 = 255;

// The text that was written, or the number of the refusal and its place; and a newline.
fn print_answer(rt: &impl Print, answer: Answer, output: &[u8]) -> io::Result<()> {
    if answer.number != 0 {
        return println!(rt; "refused {} place {}", answer.number, answer.place);
    }
    rt.write_all(front(output, answer.length))?;
    println!(rt; "")
}

// The line of one way: the call with the first `room` bytes of the output lent, and another text where it has not left
// the output as it must. `fragment_vectors` has the same with another `Answer`.
fn run_way<P: Print, F: FnOnce(&[u8], &mut [u8]) -> Answer>(
    rt: &P,
    name: &[u8],
    way: &str,
    room: usize,
    text: &[u8],
    call: F,
) -> io::Result<()>
    requires { F.IsAlwaysCallable call }
{
    rt.write_all(name)?;
    print!(rt; " {way}: ")?;
    let mut output = [UNWRITTEN; OUTPUT];
    let Some(lent) = output.get_mut(..room) else {
        return println!(rt; "there is less room");
    };
    let answer = call(text, lent);
    if !all_from(&output, answer.length, UNWRITTEN) {
        return println!(rt; "the output is changed behind the text");
    }
    print_answer(rt, answer, &output)
}

// The case, both ways.
fn run_case(rt: &impl Print, file: &[u8], c: Case) -> io::Result<()> {
    let name = bytes_of(file, c.name);
    let text = bytes_of(file, c.texts.first);
    let room = c.rooms.first;
    run_way(
        rt,
        name,
        "written",
        room,
        text,
        |text, output| write_hex(text, output),
    )?;
    run_way(
        rt,
        name,
        "read",
        room,
        text,
        |text, output| read_hex(text, output),
    )
}

fn main(rt: HostRuntime) -> io::Result<()> {
    let mut room = buffer();
    let Some(file) = read_cases(&rt, &mut room) else {
        return println!(rt; "unreadable");
    };
    each_case(&rt, file, 1, 1, |_, c| run_case(&rt, file, c))
}
