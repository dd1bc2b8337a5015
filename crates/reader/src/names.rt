// A member's name, with the colon after it.
ghost use Rattle.std.specs.Prelude.{◌≡◌, true};
ghost use Rattle.reader.specs.Work.{work_before};
ghost use Rattle.reader.specs.Names.{Lent, RepeatedIs, MemberNameIs};

use crate::containers::Container;
use crate::words::{Named, separator, spell_string};
use index::{enter, enter_by_hash};
use lexer::Cursor;
use spec::refusal::{Fault, Refusal};
use table::find::{find, short};
use tape::fields;
use tape::layout::Node;

// Whether an object has a member of this name already; the next member is entered in the index under the name. Where
// no row on the name's search path has it, no member has it. Otherwise the members are searched.
fn repeated(
    s: &[u8],
    nodes: &[Node],
    index: &mut [u16],
    object: Container,
    name: fields::Name,
) -> bool
    requires { Lent s.now (record { nodes = nodes.now; index = index.old }) }
    ensures { RepeatedIs s.now object (work_before nodes.now index.old) index.new name result }
{
    let base = object.source.base;
    let row = object.row;
    let end = object.end;
    if enter_by_hash(nodes, index, base, row, end, name)
        || !enter([s, s], nodes, index, base, row, end, name)
    {
        return false;
    }
    find([s, s], nodes, row + 1, end, name).is_some()
}

// The name of the next member of an object.
pub fn member_name(
    s: &[u8],
    nodes: &[Node],
    index: &mut [u16],
    at: Cursor,
    object: Container,
) -> Result<Named, Fault>
    requires lent { Lent s.now (record { nodes = nodes.now; index = index.old }) }
    requires object { object.object ≡ true }
    ensures { MemberNameIs s.now object (work_before nodes.now index.old) index.new at.at result }
{
    let read = at.name(s)?;
    let behind = read.next;
    let name = fields::Name {
        text: spell_string(read.plain, object.source.number, at.at + 1, behind.at),
        hash: short(read.hash),
    };
    if repeated(s, nodes, index, object, name) {
        return Err(Refusal::RepeatedName.at(behind.at - 1));
    }
    let next = separator(s, behind.blanks(s), b':')?;
    Ok(Named { next, name })
}
