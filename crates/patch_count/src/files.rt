// A file by its name: its first bytes, and what they come to.
ghost use Rattle.std.specs.Prelude.{◌≤◌, IfSome, length};
ghost use Rattle.inspection.specs.Tally.{one, result_of, holding};
ghost use Rattle.patch_count.specs.Sums.{Room, Adds, Visits};

use crate::tally::{Tally, one_inspected, one_refused};
use index;
use std::rt::Files;
use streams::{open_named, read_front};
use tape::layout;
use tape::layout::Node;

// One byte more than a patch may have, so that a longer one is seen to be too long.
pub const INPUT: usize = 32_769;

// What reading a file, and inspecting it, takes.
#[derive(Drop)]
pub struct Work {
    pub text: [u8; INPUT],
    pub nodes: [Node; layout::ROWS],
    pub index: [u16; index::SLOTS],
}

// The first bytes of the file of that name, as many as there is room for.
fn read_file<'a, R: Files>(rt: &R, name: &[u8], buf: &'a mut [u8]) -> Option<&'a [u8]>
    ensures { IfSome result (λ bytes. length bytes.now ≤ length buf.old) }
{
    let mut file = open_named(rt, name)?;
    let n = read_front(&mut file, buf)?;
    Some(&buf[..n])
}

// A file of these bytes is counted.
fn count_text<'a>(
    text: &'a [u8],
    nodes: &mut [Node; layout::ROWS],
    index: &mut [u16; index::SLOTS],
    t: Tally,
) -> Tally
    requires { Room t }
    ensures { Adds (one (result_of (holding text.now))) t result }
{
    let answer = inspect::inspect(text, nodes, index);
    one_inspected(t, answer)
}

// The file of that name is counted.
pub fn count_file<R: Files>(rt: &R, name: &[u8], work: &mut Work, t: Tally) -> Tally
    requires { Room t }
    ensures { Visits t result }
{
    let Some(text) = read_file(rt, name, &mut work.text) else {
        return one_refused(t);
    };
    count_text(text, &mut work.nodes, &mut work.index, t)
}
