// The patch tool: two file names, a document and a patch. It prints the patched document, or the refusal on one line,
// or `unreadable`.
#![tactic(auto)]

ghost use Rattle.std.specs.Prelude.{◌≤◌, IfSome, length};
ghost use Rattle.patch_tool.specs.Line.{LineIs};

use index;
use std::env::FillError;
use std::io;
use std::rt::{Env, Files};
use streams::{open_argument, read_front};
use tape::layout;

// One byte more than a text may have, so that a longer one is seen to be too long.
const INPUT: usize = 32_769;

// 65,536 bytes of output, and the newline.
const LINE: usize = 65_537;

// The line for the two texts, laid down in `line`; the answer is its length.
fn answer_line<'a>(document: &'a [u8], patch: &'a [u8], line: &mut [u8; LINE]) -> usize
    ensures { LineIs document.now patch.now line.new result }
{
    let mut nodes = [layout::NO_NODE; layout::ROWS];
    let mut index = [0u16; index::SLOTS];
    report::run(document, patch, line, &mut nodes, &mut index)
}

fn run<'a>(rt: &impl Print, document: &'a [u8], patch: &'a [u8]) -> io::Result<()> {
    let mut line = [0u8; LINE];
    let n = answer_line(document, patch, &mut line);
    rt.write_all(&line[..n])
}

// The first bytes of the file that argument i names, as many as there is room for.
fn read_file<'a, R: Env + Files>(rt: &R, i: usize, buf: &'a mut [u8]) -> Option<&'a [u8]>
    ensures { IfSome result (λ bytes. length bytes.now ≤ length buf.old) }
{
    let mut file = open_argument(rt, i)?;
    let n = read_front(&mut file, buf)?;
    Some(&buf[..n])
}

fn unreadable(rt: &impl Print) -> io::Result<()> {
    println!(rt; "unreadable")
}

// Whether there is an argument of that number.
fn is_given<R: Env>(rt: &R, i: usize) -> bool {
    let mut none = [0u8; 1];
    !matches!(rt.arg(i, &mut none), Err(FillError::NotPresent))
}

fn main(rt: HostRuntime) -> io::Result<()> {
    // two file names, and nothing behind them
    if !is_given(&rt, 2) || is_given(&rt, 3) {
        return unreadable(&rt);
    }
    let mut document_room = [0u8; INPUT];
    let mut patch_room = [0u8; INPUT];
    let Some(document) = read_file(&rt, 1, &mut document_room) else {
        return unreadable(&rt);
    };
    let Some(patch) = read_file(&rt, 2, &mut patch_room) else {
        return unreadable(&rt);
    };
    run(&rt, document, patch)
}
