// The members of the patch's objects entered in the index, row after row: no path that leads to a row is lost by a
// later one.
ghost use Rattle.std.specs.Prelude.{◌≤◌, ◌<◌, length};
ghost use Rattle.tape.specs.Layout.{patch_row, scratch_row};
ghost use Rattle.tape.specs.Lent.{before};
ghost use Rattle.index.specs.Slots.{slots};
ghost use Rattle.merge.specs.Paths.{EnteredIs};

use index::enter;
use tape::fields::name_of;
use tape::layout;
use tape::layout::{Node, Texts};
use tape::moves::load;
use tape::nodes::{end_of, kind};

// The members of the object in a row, which nests at most `levels` containers, and those of the objects among them.
pub fn enter_members<'a>(
    texts: Texts<'a>,
    nodes: &[Node],
    index: &mut [u16],
    object: usize,
    levels: u32,
)
    requires { (patch_row ≤ object) × (object < scratch_row) × (slots ≤ length index.old) }
    ensures { EnteredIs (before texts nodes.now) object levels index.old index.new }
{
    if kind(nodes, object) != layout::OBJECT || levels == 0 {
        return;
    }
    let end = end_of(nodes, object).min(layout::SCRATCH);
    // the next member stands behind the tree of this one: no range steps so
    let mut row = object + 1;
    while row < end {
        let name = name_of(load(nodes, row));
        enter(texts, nodes, index, layout::PATCH, object, row, name);
        enter_members(texts, nodes, index, row, levels - 1);
        row = end_of(nodes, row);
    }
}
