// The value that a pointer leads to.
ghost use Rattle.tape.specs.Lent.{before};
ghost use Rattle.walk.specs.Path.{WalkFromIs, WalkIs};

use crate::names::token_name;
use crate::steps::step;
use pointer::{First, Token, first, is_pointer, token};
use spec::refusal::{Fault, Refusal};
use table::spellings::part;
use tape::fields::Spelling;
use tape::layout::{Node, Texts};

// From the node in the row `start`, along the tokens from a place of the pointer on, one after another. The answer is
// the row of the value; the place of a fault is how many tokens were walked before the one that failed.
fn walk_from<'a>(
    texts: Texts<'a>,
    nodes: &[Node],
    start: usize,
    path: Spelling,
    first: usize,
) -> Result<usize, Fault>
    ensures { WalkFromIs (before texts nodes.now) start path first result }
{
    let pointer = part(texts, path);
    let mut at = first;
    let mut row = start;
    let mut walked = 0;
    loop {
        let t = token(pointer, at);
        let name = token_name(texts, path, at, t);
        // A match, since `map_err` and `?` bring the facts of a closure into the loop.
        row = match step(texts, nodes, row, name) {
            Ok(child) => child,
            Err(refusal) => return Err(refusal.at(walked)),
        };
        let Token::Next { end: _, next } = t else {
            return Ok(row);
        };
        at = next;
        walked += 1;
    }
}

// From the node in the row `start`, along the pointer that `path` spells, as `walk_from`. A text that is no pointer is
// malformed.
pub fn walk<'a>(
    texts: Texts<'a>,
    nodes: &[Node],
    start: usize,
    path: Spelling,
) -> Result<usize, Fault>
    ensures { WalkIs (before texts nodes.now) start path result }
{
    let pointer = part(texts, path);
    if !is_pointer(pointer) {
        return Err(Refusal::MalformedPointer.at(0));
    }
    match first(pointer) {
        First::Root => Ok(start),
        First::At(at) => walk_from(texts, nodes, start, path, at),
        First::Malformed => Err(Refusal::MalformedPointer.at(0)),
    }
}
