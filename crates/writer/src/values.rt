// A value of the node table as text.
ghost use Rattle.tape.specs.Lent.{before};
ghost use Rattle.writer.specs.Writing.{MeasureIs, WriteIs};

use crate::lengths::{prefix_length, scalar_length};
use crate::output::put_byte;
use crate::pieces::{closing_bracket, opening_bracket, write_prefix, write_scalar};
use tape::fields::{kind_in, name_of, value_of};
use tape::layout;
use tape::layout::{Node, Texts};
use tape::nodes::end_of;

// A sum of lengths is cut off here, so that it does not wrap, whatever the table holds.
const LENGTH_LIMIT: usize = 0x4_0000_0000;

// The length of the text of the tree in the row `at`, which nests at most `levels` containers, or the limit where the
// text is longer.
pub fn measure<'a>(texts: Texts<'a>, nodes: &[Node], at: usize, levels: u32) -> usize
    ensures { MeasureIs (before texts nodes.now) at levels result }
{
    if nodes.len() <= at {
        return 0;
    }
    let node = nodes[at];
    let kind = kind_in(node[layout::TAGS]);
    if kind < layout::ARRAY {
        return scalar_length(texts, kind, value_of(node));
    }
    if levels == 0 {
        return 0;
    }
    let object = kind == layout::OBJECT;
    let end = end_of(nodes, at);
    let mut row = at + 1;
    let mut first = true;
    // both brackets
    let mut total = 2;
    // a value's tree takes as many rows as it has nodes, so the rows of the values are no range
    while row < end {
        let before = prefix_length(texts, object, first, name_of(nodes[row]));
        let value = measure(texts, nodes, row, levels - 1);
        total = (total + before + value).min(LENGTH_LIMIT);
        first = false;
        row = end_of(nodes, row);
    }
    total
}

// The text of the tree in the row `at`, which nests at most `levels` containers, is laid down at the front of `out`,
// which is the rest of the output: as much of it as there is room for. That is all of it where `fits` says so. The
// answer is how many bytes are laid down.
pub fn write<'a>(texts: Texts<'a>, nodes: &[Node], at: usize, levels: u32, out: &mut [u8]) -> usize
    ensures { WriteIs (before texts nodes.now) at levels out.old out.new result }
{
    if nodes.len() <= at {
        return 0;
    }
    let node = nodes[at];
    let kind = kind_in(node[layout::TAGS]);
    if kind < layout::ARRAY {
        return write_scalar(texts, kind, value_of(node), out);
    }
    if levels == 0 {
        return 0;
    }
    let object = kind == layout::OBJECT;
    let end = end_of(nodes, at);
    let mut row = at + 1;
    let mut first = true;
    let mut put = put_byte(opening_bracket(object), out);
    // as in `measure`, the rows of the values are no range
    while row < end {
        let before = write_prefix(texts, object, first, name_of(nodes[row]), &mut out[put..]);
        put += before;
        first = false;
        let item = nodes[row];
        let sort = kind_in(item[layout::TAGS]);
        if sort < layout::ARRAY {
            let value = write_scalar(texts, sort, value_of(item), &mut out[put..]);
            put += value;
            row += 1;
            continue;
        }
        let value = write(texts, nodes, row, levels - 1, &mut out[put..]);
        put += value;
        row = end_of(nodes, row);
    }
    let last = put_byte(closing_bracket(object), &mut out[put..]);
    put + last
}
