// What is printed: the answer as the patch tool prints it, and the origins; or what a call has not left as it must.
use crate::rooms::UNLISTED;
use cases::{UNWRITTEN, all_from, left_well};
use json_patch::Answer;
use report::print_report;
use std::io;
use tape::layout::Node;

// The list's line: the entries up to the first that is unchanged.
pub fn print_origins<P: Print>(rt: &P, name: &[u8], origins: &[u16]) -> io::Result<()> {
    rt.write_all(name)?;
    print!(rt; " origins:")?;
    for origin in origins.iter().take_while(|entry| **entry != UNLISTED) {
        print!(rt; " {origin}")?;
    }
    println!(rt; "")
}

// How many entries there are before the first that is unchanged.
fn listed(origins: &[u16]) -> usize {
    origins
        .iter()
        .take_while(|entry| **entry != UNLISTED)
        .count()
}

// Whether the work area is all zero, the output unchanged behind the text, and the list unchanged behind its origins. A
// refusal lists none. Where something is not so, a line says it.
pub fn list_left_well<P: Print>(
    rt: &P,
    answer: Answer,
    output: &[u8],
    origins: &[u16],
    nodes: &[Node],
    index: &[u16],
) -> io::Result<bool> {
    if !left_well(rt, nodes, index, output, answer.length)? {
        return Ok(false);
    }
    let n = if answer.number == 0 {
        listed(origins)
    } else {
        0
    };
    if !all_from(origins, n, UNLISTED) {
        println!(rt; "the list is changed behind the origins")?;
        return Ok(false);
    }
    Ok(true)
}

// The line of a call with a work area that is too short. No case can say this. The answer is 1, before anything else,
// and the output and the list are untouched.
pub fn print_short<P: Print>(
    rt: &P,
    call: &str,
    what: &str,
    answer: Answer,
    output: &mut [u8],
    origins: &[u16],
) -> io::Result<()> {
    print!(rt; "{call}-{what}-short: ")?;
    if !all_from(output, 0, UNWRITTEN) {
        return println!(rt; "the output is changed");
    }
    if !all_from(origins, 0, UNLISTED) {
        return println!(rt; "the list is changed");
    }
    print_report(rt, answer, output)
}
