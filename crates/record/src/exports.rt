// The functions for C. A list is a pointer and a count there. A record goes by value, both ways, as C passes a struct
// of 16 bytes: a pointer to a result would be one more thing for the caller to lend, and could overlap the list.
ghost use Rattle.std.specs.Prelude.{◌≡◌, set, get_or};
ghost use Rattle.record.specs.Records.{no_record};

use crate::{Node, clear, read, store};

pub fn json_patch_node_read(nodes: &[Node], row: usize) -> Node
    ensures { result ≡ get_or nodes.now row no_record }
{
    read(nodes, row)
}

pub fn json_patch_node_store(nodes: &mut [Node], row: usize, node: Node)
    ensures { nodes.new ≡ set nodes.old row node }
{
    store(nodes, row, node);
}

pub fn json_patch_node_clear(nodes: &mut [Node], row: usize)
    ensures { nodes.new ≡ set nodes.old row no_record }
{
    clear(nodes, row);
}
