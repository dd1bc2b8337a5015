// A count over patch files, whose names are read from standard input, one a line: SPECIFICATION 14, T-12. It prints
// one line, or `too long` where there are more than 1,000,000 names.
//
// What is proved: the line is that of the definition `printed` (specs/Line), of the files that were visited, and no
// sum wraps. No contract of the system's calls says which files those are.
#![tactic(auto)]

mod files; // a file by its name
mod line; // the line that is printed
mod names; // names from standard input
mod tally; // the sums

ghost use Rattle.std.specs.Prelude.{IfOk};
ghost use Rattle.patch_count.specs.Sums.{Sums, FedIs};

use files::{INPUT, Work};
use index;
use line::{LINE, line};
use names::{State, TooMany, feed, finish};
use std::io;
use std::io::{IsTerminal, Read};
use std::rt::Files;
use streams::NAME;
use tally::{Tally, nothing};
use tape::layout;

// Room for a part of the input.
const CHUNK: usize = 65_536;

// The progress so far, on standard error where that is a terminal. What cannot be shown is left out.
fn progress(rt: &impl Eprint, terminal: bool, t: Tally) {
    if terminal {
        eprint!(rt; "\r{}", t.patches).ok();
    }
}

// All names except an unfinished one at the end of the input, which a read that fails is as well. `chunk` has room for
// a part of the input.
fn read_names<R: Input + Files + Eprint>(
    rt: &R,
    chunk: &mut [u8],
    name: &mut [u8],
    work: &mut Work,
    terminal: bool,
) -> Result<State, TooMany>
    ensures { FedIs result }
{
    let mut state = State {
        pending: Some(0),
        tally: nothing(),
    };
    let mut input = rt.reader();
    // a loop must end: no input is long enough to use up its turns
    for _ in 0..u64::MAX {
        let n = input.read(chunk).unwrap_or(0);
        if n == 0 {
            break;
        }
        state = feed(rt, &chunk[..n], name, work, state)?;
        progress(rt, terminal, state.tally);
    }
    Ok(state)
}

// All names.
fn count_names<R: Input + Files + Eprint>(rt: &R, terminal: bool) -> Result<Tally, TooMany>
    ensures { IfOk result Sums }
{
    let mut chunk = [0u8; CHUNK];
    let mut name = [0u8; NAME];
    let mut work = Work {
        text: [0; INPUT],
        nodes: [layout::NO_NODE; layout::ROWS],
        index: [0; index::SLOTS],
    };
    let s = read_names(rt, &mut chunk, &mut name, &mut work, terminal)?;
    finish(rt, &name, s.pending, &mut work, s.tally)
}

// The line is printed.
fn print_line(rt: &impl Print, t: Tally) -> io::Result<()>
    requires { Sums t }
{
    let mut out = [0u8; LINE];
    let n = line(t, &mut out);
    rt.write_all(&out[..n])
}

fn main(rt: HostRuntime) -> io::Result<()> {
    let terminal = rt.stderr().is_terminal();
    let counted = count_names(&rt, terminal);
    if terminal {
        eprint!(rt; "\r            \r").ok();
    }
    let Ok(tally) = counted else {
        return println!(rt; "too long");
    };
    print_line(&rt, tally)
}
