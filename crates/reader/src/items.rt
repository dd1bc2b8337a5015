// The next item of a container.
ghost use Rattle.std.specs.Prelude.{◌≡◌};
ghost use Rattle.spec.specs.Read.{closing_bracket};
ghost use Rattle.lexer.specs.Answers.{scan_outcome};
ghost use Rattle.reader.specs.Work.{work_before};
ghost use Rattle.reader.specs.Names.{Lent, ItemNameIs};
ghost use Rattle.reader.specs.Items.{after_comma, NextNameIs, NextItemIs};

use crate::containers::Container;
use crate::names::member_name;
use crate::words::{Named, no_name, separator};
use lexer::Cursor;
use spec::refusal::Fault;
use tape::layout::Node;

#[derive(Clone, Copy)]
pub enum Item {
    // its name, and the cursor where its value begins
    Begins(Named),
    // the cursor after the closing bracket
    Closed(Cursor),
}

// Crate writer has the same for its own definition; neither crate is below the other.
#[tactic(auto, unfolding(spec::specs::Read::closing_bracket))]
fn closing_bracket(object: bool) -> u8
    ensures { result ≡ closing_bracket object }
{
    if object { b'}' } else { b']' }
}

// The comma before an item that is not the first.
#[tactic(auto, unfolding(crate::specs::Items::after_comma, spec::specs::Fault::outcome_by))]
fn comma(s: &[u8], at: Cursor, first: bool) -> Result<Cursor, Fault>
    ensures { scan_outcome result ≡ after_comma s.now first at.at }
{
    if first {
        return Ok(at);
    }
    separator(s, at, b',')
}

// The name of an item; an array's element has none.
fn item_name(
    s: &[u8],
    nodes: &[Node],
    index: &mut [u16],
    at: Cursor,
    container: Container,
) -> Result<Named, Fault>
    requires { Lent s.now (record { nodes = nodes.now; index = index.old }) }
    ensures { ItemNameIs s.now container (work_before nodes.now index.old) index.new at.at result }
{
    if container.object {
        return member_name(s, nodes, index, at, container);
    }
    Ok(Named {
        next: at,
        name: no_name(),
    })
}

// The name of the next item, after the comma before it.
fn next_name(
    s: &[u8],
    nodes: &[Node],
    index: &mut [u16],
    at: Cursor,
    container: Container,
) -> Result<Named, Fault>
    requires { Lent s.now (record { nodes = nodes.now; index = index.old }) }
    ensures { NextNameIs s.now container (work_before nodes.now index.old) index.new at.at result }
{
    let first = comma(s, at, container.end == container.row + 1)?;
    item_name(s, nodes, index, first, container)
}

// The next item of a container, from the place after its opening bracket or after a value.
pub fn next_item(
    s: &[u8],
    nodes: &[Node],
    index: &mut [u16],
    at: Cursor,
    container: Container,
) -> Result<Item, Fault>
    requires { Lent s.now (record { nodes = nodes.now; index = index.old }) }
    ensures { NextItemIs s.now container (work_before nodes.now index.old) index.new at.at result }
{
    let place = at.blanks(s);
    let read = place.read(s);
    if read.byte == closing_bracket(container.object) {
        let behind = read.next;
        return Ok(Item::Closed(behind));
    }
    let named = next_name(s, nodes, index, place, container)?;
    Ok(Item::Begins(named))
}
