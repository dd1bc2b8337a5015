// Every committed case of the calls that list origins, run through the library. It prints a line for each: its name,
// and what the patch tool would print of its answer, with as many bytes of output lent as the case says. Where the
// patch is applied, there are more lines: the undo, where the call has one, and the origins listed. The stored output
// is what the second program answers, so that each run compares the two.
//
// A case begins with the name of its call, has the rooms of the output, of the undo and of the list, and three texts:
// document, patch and region. What its call does not take is 0 or empty.
#![tactic(auto)]

mod lines; // what is printed
mod plain; // the calls without an undo
mod rooms; // how much is lent
mod undone; // the call with an undo

ghost use Rattle.std.specs.Prelude.{◌≤◌};

use cases::{Case, buffer, bytes_of, case_of, print_name, print_no_case, read_cases, word_at};
use listing::apply_listing;
use merge_listing::merge_listing;
use plain::{run_plain, short_plain};
use region_listing::apply_within_listing;
use rooms::{LIST, OUTPUT, UNDO};
use std::io;
use tape::fields::narrow;
use undone::{run_undone, short_buffer, short_undone};

// The case's lines behind its name.
fn run_call(rt: &impl Print, call: &[u8], file: &[u8], c: Case, rubbish: u16) -> io::Result<()>
    requires first_bound { c.rooms.first ≤ 65_536 }
    requires second_bound { c.rooms.second ≤ 32_768 }
    requires third_bound { c.rooms.third ≤ 2_048 }
{
    let document = bytes_of(file, c.texts.first);
    let patch = bytes_of(file, c.texts.second);
    let region = bytes_of(file, c.texts.third);
    match call {
        b"apply" => run_plain(rt, file, c, rubbish, |output, origins, nodes, index| {
            apply_listing(document, patch, output, origins, nodes, index)
        }),
        b"within" => run_plain(rt, file, c, rubbish, |output, origins, nodes, index| {
            apply_within_listing(document, patch, region, output, origins, nodes, index)
        }),
        b"merge" => run_plain(rt, file, c, rubbish, |output, origins, nodes, index| {
            merge_listing(document, patch, output, origins, nodes, index)
        }),
        b"undo" => run_undone(rt, file, c, rubbish),
        _ => println!(rt; "no such call"),
    }
}

// The case's lines, with another text in them where there is less room than the case asks for.
fn run_case(rt: &impl Print, call: &[u8], file: &[u8], c: Case, rubbish: u16) -> io::Result<()> {
    print_name(rt, file, c)?;
    if OUTPUT < c.rooms.first || UNDO < c.rooms.second || LIST < c.rooms.third {
        return println!(rt; "there is less room");
    }
    run_call(rt, call, file, c, rubbish)
}

// One case after another, to the end of the file, as `each_case` goes, but a case begins with any word. What the work
// area holds before a call differs from case to case.
fn run_all(rt: &impl Print, file: &[u8]) -> io::Result<()> {
    let mut at = 0;
    while at < file.len() {
        let Some(word) = word_at(file, at, b' ') else {
            return print_no_case(rt, at);
        };
        let call = bytes_of(file, word.value);
        let Some(c) = case_of(file, at, call, 3, 3) else {
            return print_no_case(rt, at);
        };
        run_case(rt, call, file, c, narrow(at))?;
        at = c.next;
    }
    Ok(())
}

// Each call with a work area that is too short.
fn run_short(rt: &impl Print) -> io::Result<()> {
    short_plain(rt, "apply", |output, origins, nodes, index| {
        apply_listing(b"[]", b"[]", output, origins, nodes, index)
    })?;
    short_plain(rt, "within", |output, origins, nodes, index| {
        apply_within_listing(b"[]", b"[]", b"", output, origins, nodes, index)
    })?;
    short_plain(rt, "merge", |output, origins, nodes, index| {
        merge_listing(b"[]", b"[]", output, origins, nodes, index)
    })?;
    short_undone(rt)?;
    short_buffer(rt)
}

fn main(rt: HostRuntime) -> io::Result<()> {
    let mut room = buffer();
    let Some(file) = read_cases(&rt, &mut room) else {
        return println!(rt; "unreadable");
    };
    run_all(&rt, file)?;
    run_short(&rt)
}
