// The tree of the patch merged with that of the document.
ghost use Rattle.std.specs.Prelude.{◌≡◌, ◌≤◌, length};
ghost use Rattle.tape.specs.Layout.{rows};
ghost use Rattle.tape.specs.Lent.{before};
ghost use Rattle.index.specs.Slots.{slots};
ghost use Rattle.merge.specs.Trees.{MergeTreesIs, MergeReadIs};

use crate::objects::merge_object;
use crate::paths::enter_members;
use index::{SLOTS, empty};
use spec::limits;
use tape::layout;
use tape::layout::{Node, Texts};

// The patch is an object: it is merged with the document, and the result laid down in the rows from SCRATCH on. The
// answer is the row behind it, or one behind the table.
pub fn merge_trees<'a>(texts: Texts<'a>, nodes: &mut [Node], index: &mut [u16]) -> usize
    requires { (slots ≤ length index.old) × (length nodes.old ≡ rows) }
    ensures { MergeTreesIs (before texts nodes.old) nodes.new result }
{
    empty(index);
    enter_members(texts, nodes, index, layout::PATCH, limits::MAX_DEPTH);
    merge_object(
        texts,
        nodes,
        index,
        layout::DOCUMENT,
        layout::PATCH,
        layout::SCRATCH,
        limits::MAX_DEPTH,
    )
}

// As `merge_trees`, for any work area: where its lengths are not the stated ones, nothing is merged.
pub fn merge_read<'a>(texts: Texts<'a>, nodes: &mut [Node], index: &mut [u16]) -> usize
    ensures { MergeReadIs (before texts nodes.old) index.old nodes.new
        index.new result }
{
    if nodes.len() != layout::ROWS || index.len() < SLOTS {
        return 0;
    }
    merge_trees(texts, nodes, index)
}
