// The pieces of an operation's text, each laid down at the front of `out`, which is the rest of the output.
ghost use Rattle.tape.specs.Lent.{lent, before};
ghost use Rattle.writer.specs.Writing.{Placed};
ghost use Rattle.undo_log.specs.Pieces.{head_bytes, target_bytes, path_bytes, appended_bytes};
ghost use Rattle.undo_log.specs.Pieces.{PutValueIs, PutEndingIs, PutOperationIs};

use crate::digits::put_digits;
use crate::note::{Action, Target};
use spec::limits;
use table::spellings::part;
use tape::layout::{ESCAPED_STRING, Node, PLAIN_STRING, Texts};
use writer::{put_byte, put_part, write};

// What stands before the path.
fn put_head(action: Action, out: &mut [u8]) -> usize
    ensures { Placed (head_bytes action) 0 out.old out.new result }
{
    match action {
        Action::Add(_) => put_part(PLAIN_STRING, b",{\"op\":\"add\",\"path\":", out),
        Action::Remove => put_part(PLAIN_STRING, b",{\"op\":\"remove\",\"path\":", out),
        Action::Replace(_) => put_part(PLAIN_STRING, b",{\"op\":\"replace\",\"path\":", out),
    }
}

// A pointer of the patch with an index behind it.
fn put_appended(path: &[u8], index: usize, out: &mut [u8]) -> usize
    ensures { Placed (appended_bytes path.now index) 0 out.old out.new result }
{
    let put = put_part(ESCAPED_STRING, path, out);
    let last = put_digits(index, &mut out[put..]);
    put + last
}

// A target as the characters of a string.
fn put_target<'a>(texts: Texts<'a>, target: Target, out: &mut [u8]) -> usize
    ensures { Placed (target_bytes (lent texts) target) 0 out.old out.new result }
{
    match target {
        Target::At(path) => put_part(ESCAPED_STRING, part(texts, path), out),
        Target::Appended(path, index) => put_appended(part(texts, path), index, out),
    }
}

// A target between quotation marks.
fn put_path<'a>(texts: Texts<'a>, target: Target, out: &mut [u8]) -> usize
    ensures { Placed (path_bytes (lent texts) target) 0 out.old out.new result }
{
    let mut put = put_byte(b'"', out);
    let n = put_target(texts, target, &mut out[put..]);
    put += n;
    let last = put_byte(b'"', &mut out[put..]);
    put + last
}

// The value of a row with its name, and the closing brace.
fn put_value<'a>(texts: Texts<'a>, nodes: &[Node], row: usize, out: &mut [u8]) -> usize
    ensures { PutValueIs (before texts nodes.now) row out.old out.new result }
{
    let mut put = put_part(PLAIN_STRING, b",\"value\":", out);
    let n = write(texts, nodes, row, limits::MAX_DEPTH, &mut out[put..]);
    put += n;
    let last = put_byte(b'}', &mut out[put..]);
    put + last
}

// What stands behind the path.
fn put_ending<'a>(texts: Texts<'a>, nodes: &[Node], action: Action, out: &mut [u8]) -> usize
    ensures { PutEndingIs (before texts nodes.now) action out.old out.new result }
{
    match action {
        Action::Add(row) | Action::Replace(row) => put_value(texts, nodes, row, out),
        Action::Remove => put_byte(b'}', out),
    }
}

// An operation, with a comma before it.
pub fn put_operation<'a>(
    texts: Texts<'a>,
    nodes: &[Node],
    action: Action,
    target: Target,
    out: &mut [u8],
) -> usize
    ensures { PutOperationIs (before texts nodes.now) action target out.old out.new result }
{
    let mut put = put_head(action, out);
    let n = put_path(texts, target, &mut out[put..]);
    put += n;
    let last = put_ending(texts, nodes, action, &mut out[put..]);
    put + last
}
