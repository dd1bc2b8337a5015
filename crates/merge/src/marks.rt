// Which members of the patch the target has. The index has a slot for each row's parent. There the members of an
// object are noted before it is merged, and a member that the target has loses its note.
//
// Each function asks for a row of the patch and for an index that is long enough. The index is a lent slice, and a type
// for such a row would put a proof of its bounds into the steps that specs/Steps defines.
ghost use Rattle.std.specs.Prelude.{◌≡◌, ◌-◌, ◌≤◌, ◌<◌, eqb, length};
ghost use Rattle.tape.specs.Layout.{patch_row, scratch_row};
ghost use Rattle.index.specs.Slots.{slots, parent_slot, slot_at, slot_set};
ghost use Rattle.merge.specs.Marks.{NotedIs};

use index::SLOTS;
use tape::fields::narrow;
use tape::layout;
use tape::layout::Node;
use tape::nodes::end_of;

// How many slots there are for parents: the last ones of the index.
const ROOM: usize = 2048;

// A number is put into the slot of a row of the patch.
#[tactic(auto, unfolding(index::specs::Slots::slot_set))]
pub fn put_note(index: &mut [u16], row: usize, number: usize)
    requires { (patch_row ≤ row) × (row < scratch_row) × (slots ≤ length index.old) }
    ensures { index.new ≡ slot_set index.old (parent_slot (row - patch_row)) number }
{
    index[SLOTS - ROOM + (row - layout::PATCH)] = narrow(number);
}

// Whether a row has no note.
#[tactic(auto, unfolding(index::specs::Slots::slot_at))]
pub fn is_met(index: &[u16], row: usize) -> bool
    requires { (patch_row ≤ row) × (row < scratch_row) × (slots ≤ length index.now) }
    ensures { result ≡ eqb (slot_at index.now (parent_slot (row - patch_row))) 0 }
{
    index[SLOTS - ROOM + (row - layout::PATCH)] == 0
}

// The members of the object in a row of the patch are noted, each with its parent.
pub fn note_members(nodes: &[Node], index: &mut [u16], patch: usize)
    requires { (patch_row ≤ patch) × (patch < scratch_row) × (slots ≤ length index.old) }
    ensures { NotedIs nodes.now patch index.old index.new }
{
    let end = end_of(nodes, patch).min(layout::SCRATCH);
    // the next member stands behind the tree of this one: no range steps so
    let mut row = patch + 1;
    while row < end {
        put_note(index, row, patch - layout::PATCH + 1);
        row = end_of(nodes, row);
    }
}
