// Two objects merged. A member stands behind the tree of the one before it, so that the loops step by `end_of`, and not
// by a range.
ghost use Rattle.std.specs.Prelude.{◌≡◌, ◌≤◌, ◌<◌, length};
ghost use Rattle.tape.specs.Layout.{patch_row, scratch_row, rows};
ghost use Rattle.tape.specs.Lent.{before};
ghost use Rattle.index.specs.Slots.{slots};
ghost use Rattle.merge.specs.Building.{full};
ghost use Rattle.merge.specs.Merged.{members_end, MergeObjectIs};

use crate::build::{advance, close, copy};
use crate::marks::note_members;
use crate::steps::{Step, append, keep};
use tape::layout;
use tape::layout::{Node, Texts};
use tape::nodes::{end_of, kind};

// The row behind the members of the value in a row: only an object has any.
#[tactic(auto, unfolding(crate::specs::Merged::members_end))]
pub fn members_end(nodes: &[Node], target: usize) -> usize
    requires { target ≤ rows }
    ensures { result ≡ members_end nodes.now target }
{
    if kind(nodes, target) == layout::OBJECT {
        return end_of(nodes, target);
    }
    target + 1
}

// The object of the patch in the row `patch`, which nests at most `levels` containers, is merged with the value in the
// row `target`, and the result laid down in the rows from `to` on. First stand the target's members in their order,
// then those of the patch that the target does not have. The answer is the row behind the result.
pub fn merge_object<'a>(
    texts: Texts<'a>,
    nodes: &mut [Node],
    index: &mut [u16],
    target: usize,
    patch: usize,
    to: usize,
    levels: u32,
) -> usize
    requires patch_row_le_patch { (patch_row ≤ patch) × (patch < scratch_row) × (target ≤ rows)
        × (slots ≤ length index.old) }
    requires scratch_row_le_to { (scratch_row ≤ to) × (to ≤ full) × (length nodes.old ≡ rows) }
    ensures { MergeObjectIs (before texts nodes.old) target patch to levels index.old nodes.new
        index.new result }
{
    if levels == 0 {
        return to;
    }
    note_members(nodes, index, patch);
    let mut next = advance(to, 1);
    let end = members_end(nodes, target);
    let mut row = target + 1;
    while row < end {
        let at = row;
        row = end_of(nodes, at);
        next = match keep(texts, nodes, index, patch, at) {
            Step::Nothing => next,
            Step::Copy(from) => copy(nodes, from, next),
            Step::Merge(from) => merge_object(texts, nodes, index, at, from, next, levels - 1),
        };
    }
    let last = end_of(nodes, patch);
    row = patch + 1;
    while row < last {
        let at = row;
        row = end_of(nodes, at);
        next = match append(nodes, index, at) {
            Step::Nothing => next,
            Step::Copy(from) => copy(nodes, from, next),
            Step::Merge(from) => {
                merge_object(texts, nodes, index, layout::ROWS, from, next, levels - 1)
            }
        };
    }
    close(nodes, target, patch, to, next);
    next
}
