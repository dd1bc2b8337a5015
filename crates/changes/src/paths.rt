// The document changed at the location that a pointer names.
ghost use Rattle.std.specs.Prelude.{◌≤◌};
ghost use Rattle.tape.specs.Lent.{before};
ghost use Rattle.changes.specs.Document.{ReplaceDocumentIs, ChangeDocumentIs, ChangeAtIs};

use crate::alter::alter;
use crate::answers::Change;
use crate::parent::Parent;
use crate::trees::size;
use pointer::{First, first};
use spec::limits;
use spec::refusal::{Fault, Refusal};
use table::spellings::part;
use tape::fields::Spelling;
use tape::layout::{Node, Texts};
use tape::{layout, moves, nodes};

// The tree in the row `source` becomes the document. The limits are judged before anything moves.
fn replace_document(nodes: &mut [Node], used: usize, source: usize) -> Result<usize, Fault>
    requires { used ≤ 2048 }
    ensures { ReplaceDocumentIs nodes.old nodes.new used source result }
{
    if !nodes::within(nodes, source, limits::MAX_DEPTH) {
        return Err(Refusal::TooDeep.at(0));
    }
    let count = size(nodes, source);
    if limits::MAX_NODES < count {
        return Err(Refusal::TooManyNodes.at(0));
    }
    moves::splice(nodes, used, layout::DOCUMENT, used, source, count);
    Ok(count)
}

// The whole document changed.
fn change_document(nodes: &mut [Node], used: usize, change: Change) -> Result<usize, Fault>
    requires { used ≤ 2048 }
    ensures { ChangeDocumentIs nodes.old nodes.new used change result }
{
    match change {
        Change::Add(source) | Change::Replace(source) => replace_document(nodes, used, source),
        Change::Remove => Err(Refusal::RemoveOfRoot.at(0)),
    }
}

// The document, which is the first `used` rows, changed at the location that the pointer in `path` names.
pub fn change_at<'a>(
    texts: Texts<'a>,
    nodes: &mut [Node],
    used: usize,
    path: Spelling,
    change: Change,
) -> Result<usize, Fault>
    ensures { ChangeAtIs (before texts nodes.old) nodes.new used path change result }
{
    if limits::MAX_NODES < used {
        return Err(Refusal::TooManyNodes.at(0));
    }
    match first(part(texts, path)) {
        First::Root => change_document(nodes, used, change),
        First::At(at) => {
            // where no row is in use, the table holds no document
            if used == 0 {
                return Err(Refusal::LocationMissing.at(0));
            }
            let root = Parent {
                used,
                row: layout::DOCUMENT,
                below: limits::MAX_DEPTH - 1,
            };
            alter(texts, nodes, root, path, at, change)
        }
        First::Malformed => Err(Refusal::MalformedPointer.at(0)),
    }
}
