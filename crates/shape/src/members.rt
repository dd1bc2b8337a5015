// A member of an operation, by its name.
ghost use Rattle.std.specs.Prelude.{◌≡◌};
ghost use Rattle.tape.specs.Lent.{before};
ghost use Rattle.shape.specs.Members.{MemberIs, StringIs, string_at};

use table::find::find_ascii;
use tape::fields::{Spelling, kind_in, value_of};
use tape::layout;
use tape::layout::{Node, Texts};
use tape::nodes::end_of;

// The row of the member with that name, in the object in a row.
pub fn member<'a>(texts: Texts<'a>, nodes: &[Node], row: usize, name: &[u8]) -> Option<usize>
    ensures { MemberIs (before texts nodes.now) row name.now result }
{
    if nodes.len() <= row {
        return None;
    }
    let end = end_of(nodes, row);
    find_ascii(texts, nodes, row + 1, end, name)
}

// The string that is the member with that name, by where it stands.
pub fn string_member<'a>(
    texts: Texts<'a>,
    nodes: &[Node],
    row: usize,
    name: &[u8],
) -> Option<Spelling>
    ensures { StringIs (before texts nodes.now) row name.now result }
{
    string_in(nodes, member(texts, nodes, row, name))
}

// The string in the row of a member, if there is one and it is a string.
pub fn string_in(nodes: &[Node], member: Option<usize>) -> Option<Spelling>
    ensures { result ≡ string_at nodes.now member }
{
    let Some(at) = member else {
        return None;
    };
    if nodes.len() <= at {
        return None;
    }
    let node = nodes[at];
    if kind_in(node[layout::TAGS]) != layout::STRING {
        return None;
    }
    Some(value_of(node))
}
