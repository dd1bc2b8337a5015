// The four members that an operation may have, found in one pass over its rows.
ghost use Rattle.std.specs.Prelude.{◌≡◌};
ghost use Rattle.spec.specs.Value.{same_text};
ghost use Rattle.text.specs.Decode.{decode};
ghost use Rattle.tape.specs.Lent.{lent, before};
ghost use Rattle.table.specs.Meaning.{spelled};
ghost use Rattle.shape.specs.Members.{MembersFound, noted, all_noted};

use table::spellings::{part, spells};
use tape::fields::{Name, Spelling, kind_in, name_of, wide};
use tape::layout;
use tape::layout::{Node, Texts};
use tape::nodes::end_of;

// The rows of an operation's members.
#[derive(Clone, Copy)]
pub struct Members {
    pub op: Option<usize>,
    pub path: Option<usize>,
    pub value: Option<usize>,
    pub from: Option<usize>,
}

// What a node has room for of the hashes of the four names.
const OP: u16 = 357;

const PATH: u16 = 11181;

const VALUE: u16 = 51041;

const FROM: u16 = 7926;

// Whether a name says a word. The bytes of a name without escapes are compared first.
fn says<'a>(texts: Texts<'a>, name: Spelling, word: &[u8]) -> bool
    requires { decode word.now ≡ word.now }
    ensures { result ≡ same_text (spelled (lent texts) name) word.now }
{
    if name.form == layout::PLAIN_STRING && part(texts, name) == word {
        return true;
    }
    spells(texts, name, word)
}

// The first row that has the name: what was found before, and otherwise this row if its name is the word.
fn noted<'a>(
    texts: Texts<'a>,
    own: Name,
    at: usize,
    so_far: Option<usize>,
    hash: u16,
    word: &[u8],
) -> Option<usize>
    requires { decode word.now ≡ word.now }
    ensures { result ≡ noted (lent texts) own at so_far hash word.now }
{
    if own.hash != hash {
        return so_far;
    }
    if so_far.is_some() {
        return so_far;
    }
    if says(texts, own.text, word) {
        return Some(at);
    }
    None
}

// The same, for each of the four names. A name has one hash, so it can be one of them at most.
fn all_noted<'a>(texts: Texts<'a>, own: Name, at: usize, so_far: Members) -> Members
    ensures { result ≡ all_noted (lent texts) own at so_far }
{
    match own.hash {
        OP => Members {
            op: noted(texts, own, at, so_far.op, OP, b"op"),
            ..so_far
        },
        PATH => Members {
            path: noted(texts, own, at, so_far.path, PATH, b"path"),
            ..so_far
        },
        VALUE => Members {
            value: noted(texts, own, at, so_far.value, VALUE, b"value"),
            ..so_far
        },
        FROM => Members {
            from: noted(texts, own, at, so_far.from, FROM, b"from"),
            ..so_far
        },
        _ => so_far,
    }
}

// The rows of the members, of the object in a row.
pub fn members_of<'a>(texts: Texts<'a>, nodes: &[Node], row: usize) -> Members
    ensures { MembersFound (before texts nodes.now) row result }
{
    let mut found = Members {
        op: None,
        path: None,
        value: None,
        from: None,
    };
    if nodes.len() <= row {
        return found;
    }
    let end = end_of(nodes, row);
    let mut at = row + 1;
    while at < end {
        found = all_noted(texts, name_of(nodes[at]), at, found);
        if kind_in(nodes[at][layout::TAGS]) < layout::ARRAY {
            at += 1;
            continue;
        }
        at = at + 1 + wide(nodes[at][layout::SPAN]);
    }
    found
}
