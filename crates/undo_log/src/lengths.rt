// How long the pieces of an operation's text are. Each length is cut off one past the limit of bytes, so that none
// wraps.
ghost use Rattle.std.specs.Prelude.{◌≡◌, ◌+◌, length};
ghost use Rattle.tape.specs.Lent.{lent, before};
ghost use Rattle.undo_log.specs.Pieces.{head_bytes, target_bytes, path_bytes, capped};
ghost use Rattle.undo_log.specs.Pieces.{ValueLengthIs, EndingLengthIs, OperationLengthIs, MoreBytesIs};

use crate::digits::digits_length;
use crate::note::{Action, Target};
use spec::limits;
use table::spellings::part;
use tape::layout::{Node, Texts};
use text::written_length;
use writer::measure;

// The sum of two lengths.
fn joined(a: usize, b: usize) -> usize
    ensures { result ≡ capped (a + b) }
{
    a.saturating_add(b).min(limits::MAX_BYTES + 1)
}

fn target_length<'a>(texts: Texts<'a>, target: Target) -> usize
    ensures { result ≡ capped (length (target_bytes (lent texts) target)) }
{
    match target {
        Target::At(path) => joined(written_length(2, part(texts, path)), 0),
        Target::Appended(path, index) => {
            joined(written_length(2, part(texts, path)), digits_length(index))
        }
    }
}

fn path_length<'a>(texts: Texts<'a>, target: Target) -> usize
    ensures { result ≡ capped (length (path_bytes (lent texts) target)) }
{
    joined(target_length(texts, target), 2)
}

fn head_length(action: Action) -> usize
    ensures { result ≡ length (head_bytes action) }
{
    match action {
        Action::Add(_) => 20,
        Action::Remove => 23,
        Action::Replace(_) => 24,
    }
}

// The value of a row with its name, and the closing brace.
fn value_length<'a>(texts: Texts<'a>, nodes: &[Node], row: usize) -> usize
    ensures { ValueLengthIs (before texts nodes.now) row result }
{
    joined(measure(texts, nodes, row, limits::MAX_DEPTH), 10)
}

fn ending_length<'a>(texts: Texts<'a>, nodes: &[Node], action: Action) -> usize
    ensures { EndingLengthIs (before texts nodes.now) action result }
{
    match action {
        Action::Add(row) | Action::Replace(row) => value_length(texts, nodes, row),
        Action::Remove => 1,
    }
}

fn operation_length<'a>(texts: Texts<'a>, nodes: &[Node], action: Action, target: Target) -> usize
    ensures { OperationLengthIs (before texts nodes.now) action target result }
{
    let first = joined(head_length(action), path_length(texts, target));
    joined(first, ending_length(texts, nodes, action))
}

// The length of a text with one more operation before it. A text that is too long already is not measured.
pub fn more_bytes<'a>(
    texts: Texts<'a>,
    nodes: &[Node],
    bytes: usize,
    action: Action,
    target: Target,
) -> usize
    ensures { MoreBytesIs (before texts nodes.now) bytes action target result }
{
    if limits::MAX_BYTES < bytes {
        return limits::MAX_BYTES + 1;
    }
    joined(operation_length(texts, nodes, action, target), bytes)
}
