// A change at the parent of a location.
ghost use Rattle.tape.specs.Lent.{before};
ghost use Rattle.changes.specs.Change.{AlterIs};

use crate::answers::Change;
use crate::children::change_child;
use crate::parent::Parent;
use crate::trees::resize;
use pointer::{Token, token};
use spec::refusal::{Fault, Refusal};
use table::spellings::part;
use tape::fields::Spelling;
use tape::layout::{Node, Texts};
use walk::{step, token_name};

// Follows the tokens from a place of the pointer on: down from the parent to the child that each token but the last
// names, and up again with each node's span brought up to date.
pub fn alter<'a>(
    texts: Texts<'a>,
    nodes: &mut [Node],
    parent: Parent,
    path: Spelling,
    at: usize,
    change: Change,
) -> Result<usize, Fault>
    ensures { AlterIs (before texts nodes.old) nodes.new parent path at change result }
{
    let t = token(part(texts, path), at);
    let name = token_name(texts, path, at, t);
    let Token::Next { end: _, next } = t else {
        return change_child(texts, nodes, parent, name, change);
    };
    let child = parent.told(step(texts, nodes, parent.row, name))?;
    // a child that may nest no container is a scalar, and has no children
    if parent.below == 0 {
        return Err(Refusal::LocationMissing.at(parent.walked() + 1));
    }
    // where the table holds no document, a step may lead elsewhere
    if parent.used <= child {
        return Err(Refusal::LocationMissing.at(0));
    }
    let inner = Parent {
        used: parent.used,
        row: child,
        below: parent.below - 1,
    };
    let rows = alter(texts, nodes, inner, path, next, change)?;
    resize(nodes, parent.row, parent.used, rows);
    Ok(rows)
}
