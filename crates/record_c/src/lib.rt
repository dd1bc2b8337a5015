// The three functions of crate `record` for C, as a static library: include/json_patch.h declares them. A list is a
// pointer and a count there. A record goes by value, both ways, as C passes a struct of 16 bytes: a pointer to a result
// would be one more thing for the caller to lend, and could overlap the list.
#![tactic(auto)]

ghost use Rattle.std.specs.Prelude.{◌≡◌, set, get_or};
ghost use Rattle.record.specs.Records.{no_record};

use record::Node;

#[unsafe(no_mangle)]
pub extern "C" fn json_patch_node_read(nodes: &[Node], row: usize) -> Node
    ensures { result ≡ get_or nodes.now row no_record }
{
    record::json_patch_node_read(nodes, row)
}

#[unsafe(no_mangle)]
pub extern "C" fn json_patch_node_store(nodes: &mut [Node], row: usize, node: Node)
    ensures { nodes.new ≡ set nodes.old row node }
{
    record::json_patch_node_store(nodes, row, node);
}

#[unsafe(no_mangle)]
pub extern "C" fn json_patch_node_clear(nodes: &mut [Node], row: usize)
    ensures { nodes.new ≡ set nodes.old row no_record }
{
    record::json_patch_node_clear(nodes, row);
}
