// Rows of the result laid down. Where the table has no room for them they are only counted, up to FULL.
ghost use Rattle.std.specs.Prelude.{◌≡◌, ◌+◌, ◌-◌, ◌≤◌, ◌<◌, min, length};
ghost use Rattle.merge.specs.Building.{full, object_origin, closed, CopyIs};

use tape::fields::narrow;
use tape::layout;
use tape::layout::Node;
use tape::moves::{load, slide, store};
use tape::nodes::{end_of, kind};

// The count stops here: a row behind the table.
pub const FULL: usize = layout::ROWS + 1;

// The row `count` rows behind `to`, at most FULL.
pub fn advance(to: usize, count: usize) -> usize
    ensures { result ≡ min (to + count) full }
{
    to.saturating_add(count).min(FULL)
}

// The tree in the row `from` is copied to the rows from `to` on. The answer is the row behind it.
pub fn copy(nodes: &mut [Node], from: usize, to: usize) -> usize
    requires { (from < length nodes.old) × (to ≤ full) }
    ensures { CopyIs nodes.old from to nodes.new result }
{
    let count = end_of(nodes, from) - from;
    slide(nodes, to, from, count);
    advance(to, count)
}

// The origin of the object that is made of the value in the row `target`: an object keeps its own, and any other value
// becomes an object of the patch.
#[tactic(auto, unfolding(crate::specs::Building::object_origin))]
pub fn object_origin(nodes: &[Node], target: usize, patch: usize) -> u16
    ensures { result ≡ object_origin nodes.now target patch }
{
    if kind(nodes, target) == layout::OBJECT {
        let node = load(nodes, target);
        return node[layout::ORIGIN];
    }
    let node = load(nodes, patch);
    node[layout::ORIGIN]
}

// The object in the row `patch` is stored in the row `to`, with the origin of the one that is made of the value in the
// row `target`, and with the members that stand behind the row `to`, up to `next`.
#[tactic(auto, unfolding(crate::specs::Building::closed))]
pub fn close(nodes: &mut [Node], target: usize, patch: usize, to: usize, next: usize)
    requires { to ≤ next }
    ensures { nodes.new ≡ closed nodes.old target patch to next }
{
    if next == to {
        return;
    }
    let origin = object_origin(nodes, target, patch);
    let mut node = load(nodes, patch);
    node[layout::SPAN] = narrow(next - to - 1);
    node[layout::ORIGIN] = origin;
    store(nodes, to, node);
}
