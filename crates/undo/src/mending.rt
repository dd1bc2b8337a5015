// What takes back a value that is put in at a location, by the document before.
ghost use Rattle.std.specs.Prelude.{◌≡◌};
ghost use Rattle.spec.specs.Pointer.{is_dash};
ghost use Rattle.tape.specs.Lent.{lent, before};
ghost use Rattle.text.specs.Decode.{text_of};
ghost use Rattle.table.specs.Meaning.{part_of};
ghost use Rattle.undo.specs.Mend.{NoteRemovedIs, NoteReplacedIs, MendIs, MendBelowIs, MendChildIs, MendElementIs};
ghost use Rattle.undo.specs.Mend.{MendMemberIs};

use crate::cuts::{last_slash, shortened};
use pointer::{First, Index, first, index, token};
use table::spellings::part;
use tape::fields::{Name, Spelling};
use tape::layout;
use tape::layout::{Node, Texts};
use tape::nodes::{arity, kind};
use undo_log::log::Log;
use undo_log::note::{Action, Target, note};
use walk::{step, token_name, walk};

// T-09: "a removed one is added": the value at `path` as it stands.
pub fn note_removed<'a>(
    texts: Texts<'a>,
    nodes: &[Node],
    log: Log,
    path: Spelling,
    work: &mut [u8],
) -> Log
    ensures { NoteRemovedIs (before texts nodes.now) log path work.old work.new result }
{
    let Ok(row) = walk(texts, nodes, layout::DOCUMENT, path) else {
        return log;
    };
    note(texts, nodes, log, Action::Add(row), Target::At(path), work)
}

// T-09: "a value that replaced another is replaced by the old one": the value at `path` as it stands.
// Apart from `note_removed`: one function for both would take the action as a closure, with clauses of its own.
pub fn note_replaced<'a>(
    texts: Texts<'a>,
    nodes: &[Node],
    log: Log,
    path: Spelling,
    work: &mut [u8],
) -> Log
    ensures { NoteReplacedIs (before texts nodes.now) log path work.old work.new result }
{
    let Ok(row) = walk(texts, nodes, layout::DOCUMENT, path) else {
        return log;
    };
    note(
        texts,
        nodes,
        log,
        Action::Replace(row),
        Target::At(path),
        work,
    )
}

// Whether a token, as it is spelled, is `-`.
fn is_dash(token: &[u8]) -> bool
    ensures { result ≡ is_dash (text_of 3 token.now) }
{
    matches!(index(token), Index::Dash)
}

// A location below the root: its pointer, where the last token begins there, that token, and the parent's row.
#[derive(Clone, Copy)]
struct Location {
    path: Spelling,
    next: usize,
    name: Name,
    parent: usize,
}

// T-09: "A value inserted in an array replaces nothing": it is removed, "an array's `-` as its index".
fn mend_element<'a>(
    texts: Texts<'a>,
    nodes: &[Node],
    log: Log,
    at: Location,
    work: &mut [u8],
) -> Log
    ensures { MendElementIs (before texts nodes.now) log at.path at.next at.parent at.name
        work.old work.new result }
{
    let target = if is_dash(part(texts, at.name.text)) {
        Target::Appended(shortened(at.path, at.next), arity(nodes, at.parent))
    } else {
        Target::At(at.path)
    };
    note(texts, nodes, log, Action::Remove, target, work)
}

// A member that is there is replaced by itself, and a new one removed.
fn mend_member<'a>(texts: Texts<'a>, nodes: &[Node], log: Log, at: Location, work: &mut [u8]) -> Log
    ensures { MendMemberIs (before texts nodes.now) log at.path at.next at.parent at.name
        work.old work.new result }
{
    let action = match step(texts, nodes, at.parent, at.name) {
        Ok(row) => Action::Replace(row),
        Err(_) => Action::Remove,
    };
    note(texts, nodes, log, action, Target::At(at.path), work)
}

// By the last token and the parent in a row.
fn mend_child<'a>(texts: Texts<'a>, nodes: &[Node], log: Log, at: Location, work: &mut [u8]) -> Log
    ensures { MendChildIs (before texts nodes.now) log at.path at.next at.parent at.name
        work.old work.new result }
{
    if kind(nodes, at.parent) == layout::ARRAY {
        return mend_element(texts, nodes, log, at, work);
    }
    mend_member(texts, nodes, log, at, work)
}

// Below the root.
fn mend_below<'a>(
    texts: Texts<'a>,
    nodes: &[Node],
    log: Log,
    path: Spelling,
    work: &mut [u8],
) -> Log
    ensures { MendBelowIs (before texts nodes.now) log path work.old work.new result }
{
    let pointer = part(texts, path);
    let cut = last_slash(pointer);
    let Ok(parent) = walk(texts, nodes, layout::DOCUMENT, shortened(path, cut.end)) else {
        return log;
    };
    let at = Location {
        path,
        next: cut.next,
        name: token_name(texts, path, cut.next, token(pointer, cut.next)),
        parent,
    };
    mend_child(texts, nodes, log, at, work)
}

// The undo of a value that is put in at `path`, noted before it is put in.
pub fn mend<'a>(texts: Texts<'a>, nodes: &[Node], log: Log, path: Spelling, work: &mut [u8]) -> Log
    ensures { MendIs (before texts nodes.now) log path work.old work.new result }
{
    match first(part(texts, path)) {
        First::Root => note(
            texts,
            nodes,
            log,
            Action::Replace(layout::DOCUMENT),
            Target::At(path),
            work,
        ),
        First::At(_) => mend_below(texts, nodes, log, path, work),
        First::Malformed => log,
    }
}
