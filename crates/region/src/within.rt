// The shape of a patch with the rule for makers: SPECIFICATION 15.3, T-05. The rule is judged last of each element.
ghost use Rattle.std.specs.Prelude.{◌≡◌};
ghost use Rattle.tape.specs.Lent.{before};
ghost use Rattle.shape.specs.Kinds.{spec_kind};
ghost use Rattle.region.specs.Rule.{kind_permitted};
ghost use Rattle.region.specs.Within.{ElementIs, ElementsAre, PatchWithinIs};

use crate::compare::Region;
use shape::{Kind, Misshapen, kind_of, others_right, string_member};
use spec::limits;
use spec::refusal::Refusal;
use table::spellings::part;
use tape::layout;
use tape::layout::{Node, Texts};
use tape::nodes::{arity, end_of, kind};

// Whether the operation `op` may be of a kind: the first is a test, and makers send no others than these.
fn kind_permitted(op: usize, kind: Kind) -> bool
    ensures { result ≡ kind_permitted op (spec_kind kind) }
{
    if op == 1 {
        return matches!(kind, Kind::Test);
    }
    matches!(kind, Kind::Add | Kind::Replace | Kind::Test)
}

// Refused where the element in a row, which is operation `op`, is malformed, and then where it breaks the rule.
fn element_right<'a>(
    texts: Texts<'a>,
    nodes: &[Node],
    row: usize,
    op: usize,
    region: Region<'_>,
) -> Result<(), Refusal>
    ensures { ElementIs (before texts nodes.now) row op region.entry.text.now result }
{
    let Some(kind) = kind_of(texts, nodes, row) else {
        return Err(Refusal::WrongShape);
    };
    let Some(path) = string_member(texts, nodes, row, b"path") else {
        return Err(Refusal::WrongShape);
    };
    others_right(texts, nodes, row, Some(kind), path)?;
    if !kind_permitted(op, kind) {
        return Err(Refusal::NotPermitted);
    }
    if !region.contains(part(texts, path)) {
        return Err(Refusal::NotPermitted);
    }
    Ok(())
}

// The elements in the rows from `start` up to `end`, the first of which is operation 1.
// A loop of its own beside shape's: one that takes the test as a closure has a longer contract than both.
fn elements_within<'a>(
    texts: Texts<'a>,
    nodes: &[Node],
    start: usize,
    end: usize,
    region: Region<'_>,
) -> Result<(), Misshapen>
    ensures { ElementsAre (before texts nodes.now) start end region.entry.text.now result }
{
    let mut row = start;
    let mut op = 0;
    while row < end {
        if nodes.len() <= row {
            return Ok(());
        }
        op += 1;
        if let Err(refusal) = element_right(texts, nodes, row, op, region) {
            return Err(Misshapen { refusal, op });
        }
        row = end_of(nodes, row);
    }
    Ok(())
}

// The shape of the patch in a row, within a region.
pub fn shape_within<'a>(
    texts: Texts<'a>,
    nodes: &[Node],
    row: usize,
    region: &[u8],
) -> Result<(), Misshapen>
    ensures { PatchWithinIs (before texts nodes.now) row region.now result }
{
    if kind(nodes, row) != layout::ARRAY {
        return Err(Misshapen {
            refusal: Refusal::WrongShape,
            op: 0,
        });
    }
    let count = arity(nodes, row);
    if limits::MAX_OPERATIONS < count {
        return Err(Misshapen {
            refusal: Refusal::TooManyOperations,
            op: 0,
        });
    }
    if count == 0 {
        return Err(Misshapen {
            refusal: Refusal::NotPermitted,
            op: 0,
        });
    }
    if nodes.len() <= row {
        return Ok(());
    }
    let end = end_of(nodes, row);
    elements_within(texts, nodes, row + 1, end, Region::new(region))
}
