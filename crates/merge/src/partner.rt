// The member of an object of the patch that has a name.
ghost use Rattle.std.specs.Prelude.{◌≤◌, ◌<◌, length};
ghost use Rattle.tape.specs.Layout.{patch_row, scratch_row};
ghost use Rattle.tape.specs.Lent.{before};
ghost use Rattle.index.specs.Slots.{slots};
ghost use Rattle.merge.specs.Partner.{PartnerIs};

use index::{enter, enter_by_hash, lookup};
use table::find::find;
use tape::fields::Name;
use tape::layout;
use tape::layout::{Node, Texts};
use tape::nodes::end_of;

// The index finds the member. Where it finds none, and no row on the name's search path has the name, no member has it:
// a row behind all others is entered, so that no path to a row is lost. Otherwise the members are searched.
pub fn partner<'a>(
    texts: Texts<'a>,
    nodes: &[Node],
    index: &mut [u16],
    patch: usize,
    name: Name,
) -> Option<usize>
    requires { (patch_row ≤ patch) × (patch < scratch_row) × (slots ≤ length index.old) }
    ensures { PartnerIs (before texts nodes.now) patch name index.old index.new result }
{
    if let Some(row) = lookup(texts, nodes, index, layout::PATCH, patch, name) {
        return Some(row);
    }
    if enter_by_hash(nodes, index, layout::PATCH, patch, layout::SCRATCH, name)
        || !enter(
            texts,
            nodes,
            index,
            layout::PATCH,
            patch,
            layout::SCRATCH,
            name,
        )
    {
        return None;
    }
    find(texts, nodes, patch + 1, end_of(nodes, patch), name)
}
