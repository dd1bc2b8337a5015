// A node of the table as a record, its fields by their names: the typed way to look at a lent list of nodes and to
// clear it.
//
// A record has the fields of the engine's row, `tape::layout::Node`, in the same order. What these functions do to a
// record's fields is what those of `tape::moves` do to its row (specs/Rows.antt). Each is total.
#![tactic(auto)]

ghost use Rattle.std.specs.Prelude.{◌≡◌, set, get_or};
ghost use Rattle.record.specs.Records.{no_record};

mod exports;

pub use exports::{json_patch_node_clear, json_patch_node_read, json_patch_node_store};

#[repr(C)]
#[derive(Clone, Copy)]
pub struct Node {
    // where its name begins, and the name's bytes
    pub name_start: u16,
    pub name_length: u16,
    // where a number's or a string's text begins, and its bytes
    pub start: u16,
    pub length: u16,
    // how many nodes are below it, at every depth
    pub span: u16,
    // a hash of the name's text
    pub hash: u16,
    // its kind, and how and where its text and its name are read
    pub tags: u16,
    pub origin: u16,
}

// The record of a row without a node.
pub const NO_NODE: Node = Node {
    name_start: 0,
    name_length: 0,
    start: 0,
    length: 0,
    span: 0,
    hash: 0,
    tags: 0,
    origin: 0,
};

// The record in a row; behind the list, the one without a node.
pub fn read(nodes: &[Node], row: usize) -> Node
    ensures { result ≡ get_or nodes.now row no_record }
{
    let mut node = NO_NODE;
    if row < nodes.len() {
        node = nodes[row];
    }
    node
}

// The record goes into a row, and no other record changes; behind the list nothing is stored.
pub fn store(nodes: &mut [Node], row: usize, node: Node)
    ensures { nodes.new ≡ set nodes.old row node }
{
    if row < nodes.len() {
        nodes[row] = node;
    }
}

// Each field of the record in a row is made zero, and no other record changes; behind the list nothing is cleared.
pub fn clear(nodes: &mut [Node], row: usize)
    ensures { nodes.new ≡ set nodes.old row no_record }
{
    if row < nodes.len() {
        nodes[row] = NO_NODE;
    }
}
