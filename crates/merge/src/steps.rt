// What becomes of one member: one of the target's, in its place, or one of the patch's, behind all of those.
ghost use Rattle.std.specs.Prelude.{◌≡◌, [], ◌≤◌, ◌<◌, length, get_or};
ghost use Rattle.tape.specs.Layout.{patch_row, scratch_row};
ghost use Rattle.tape.specs.Fields.{kind_of};
ghost use Rattle.tape.specs.Lent.{before};
ghost use Rattle.index.specs.Slots.{slots};
ghost use Rattle.merge.specs.Steps.{step_for, append_step, KeepIs};

use crate::marks::{is_met, put_note};
use crate::partner::partner;
use tape::fields::name_of;
use tape::layout;
use tape::layout::{Node, Texts};
use tape::moves::load;
use tape::nodes::kind;

#[derive(Clone, Copy, Debug, PartialEq, Eq)]
pub enum Step {
    // it is gone
    Nothing,
    // the tree in this row stands there
    Copy(usize),
    // the object of the patch in this row is merged with it
    Merge(usize),
}

// By the value of the patch in a row: null removes, an object is merged, and anything else replaces.
#[tactic(auto, unfolding(crate::specs::Steps::step_for))]
fn step_of(nodes: &[Node], row: usize) -> Step
    ensures { result ≡ step_for (kind_of (get_or nodes.now row [])) row }
{
    match kind(nodes, row) {
        layout::NULL => Step::Nothing,
        layout::OBJECT => Step::Merge(row),
        _ => Step::Copy(row),
    }
}

// What becomes of the target's member in a row, by the object of the patch in the row `patch`. The patch's member of
// the same name loses its note.
pub fn keep<'a>(
    texts: Texts<'a>,
    nodes: &[Node],
    index: &mut [u16],
    patch: usize,
    row: usize,
) -> Step
    requires { (patch_row ≤ patch) × (patch < scratch_row) × (slots ≤ length index.old) }
    ensures { KeepIs (before texts nodes.now) patch row index.old index.new result }
{
    let name = name_of(load(nodes, row));
    let Some(found) = partner(texts, nodes, index, patch, name) else {
        return Step::Copy(row);
    };
    if !(layout::PATCH..layout::SCRATCH).contains(&found) {
        return Step::Nothing;
    }
    put_note(index, found, 0);
    step_of(nodes, found)
}

// What becomes of the patch's member in a row, where the target has no member of the same name.
#[tactic(auto, unfolding(crate::specs::Steps::append_step))]
pub fn append(nodes: &[Node], index: &[u16], row: usize) -> Step
    requires { (patch_row ≤ row) × (slots ≤ length index.now) }
    ensures { result ≡ append_step nodes.now row index.now }
{
    if layout::SCRATCH <= row || is_met(index, row) {
        return Step::Nothing;
    }
    step_of(nodes, row)
}
