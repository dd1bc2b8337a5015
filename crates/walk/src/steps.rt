// From a value to the child that a token names.
ghost use Rattle.tape.specs.Lent.{before};
ghost use Rattle.walk.specs.Step.{NthIs, ElementIs, MemberIs, StepIs};

use pointer::{Index, index};
use spec::refusal::Refusal;
use table::find::find;
use table::spellings::part;
use tape::fields::Name;
use tape::layout::{Node, Texts};
use tape::{layout, nodes};

// The row of the child at a position.
fn nth<'a>(texts: Texts<'a>, nodes: &[Node], row: usize, k: usize) -> Result<usize, Refusal>
    ensures { NthIs (before texts nodes.now) row k result }
{
    nodes::child(nodes, row, k).or(Err(Refusal::LocationMissing))
}

// The row of an array's element.
fn element<'a>(texts: Texts<'a>, nodes: &[Node], row: usize, token: Name) -> Result<usize, Refusal>
    ensures { ElementIs (before texts nodes.now) row token result }
{
    match index(part(texts, token.text)) {
        Index::At(n) => nth(texts, nodes, row, n),
        Index::Not => Err(Refusal::NoIndex),
        Index::Dash => Err(Refusal::LocationMissing),
        Index::Beyond => Err(Refusal::LocationMissing),
    }
}

// The row of an object's member.
fn member<'a>(texts: Texts<'a>, nodes: &[Node], row: usize, token: Name) -> Result<usize, Refusal>
    ensures { MemberIs (before texts nodes.now) row token result }
{
    if nodes.len() <= row {
        return Err(Refusal::LocationMissing);
    }
    find(texts, nodes, row + 1, nodes::end_of(nodes, row), token).ok_or(Refusal::LocationMissing)
}

// The row of the child, of the node in a row, that a token names; the token is given as a name, with its hash.
pub fn step<'a>(texts: Texts<'a>, nodes: &[Node], row: usize, token: Name) -> Result<usize, Refusal>
    ensures { StepIs (before texts nodes.now) row token result }
{
    match nodes::kind(nodes, row) {
        layout::ARRAY => element(texts, nodes, row, token),
        layout::OBJECT => member(texts, nodes, row, token),
        _ => Err(Refusal::LocationMissing),
    }
}
