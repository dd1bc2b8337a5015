// The work area, as every call that applies or reads a patch takes it: SPECIFICATION 2.4. A call asks `suffices` first
// and calls `clear` last. One function that takes what is between as a closure was tried. Its callers' proofs do not
// close: the closure captures the output, and nothing is known of what an FnOnce leaves in a capture.
ghost use Rattle.std.specs.Prelude.{◌≡◌, ◌≤◌, length};
ghost use Rattle.std.specs.Bool.{OnTrue};
ghost use Rattle.spec.specs.Limits.{work_nodes, work_entries};
ghost use Rattle.spec.specs.Answer.{work_suffices};
ghost use Rattle.tape.specs.Columns.{filled};
ghost use Rattle.tape.specs.Fields.{no_node};

use index;
use tape::layout;
use tape::layout::Node;
use tape::moves::wipe;

// Whether the work area is long enough.
pub fn suffices(nodes: &[Node], index: &[u16]) -> bool
    ensures verdict { result
        ≡ work_suffices (record { output = 0; nodes = length nodes.now; index = length index.now }) }
    ensures nodes_long { OnTrue result (work_nodes ≤ length nodes.now) }
    ensures index_long { OnTrue result (work_entries ≤ length index.now) }
{
    layout::ROWS <= nodes.len() && index::SLOTS <= index.len()
}

// The work area is all zero from now on, for its stated length.
pub fn clear(nodes: &mut [Node], index: &mut [u16])
    ensures nodes_wiped { nodes.new ≡ filled no_node nodes.old 0 work_nodes }
    ensures index_emptied { index.new ≡ filled 0 index.old 0 work_entries }
{
    wipe(nodes);
    index::empty(index);
}
