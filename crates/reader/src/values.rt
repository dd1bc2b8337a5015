// Values, one level inside the other.
ghost use Rattle.std.specs.Prelude.{◌≡◌, ◌+◌, ◌-◌, ◌%◌, ◌<◌, ◌≤◌, Some, length, set};
ghost use Rattle.spec.specs.Bytes.{byte};
ghost use Rattle.tape.specs.Layout.{values, sources, array_kind, scratch_row};
ghost use Rattle.tape.specs.Fields.{row_with};
ghost use Rattle.reader.specs.Begins.{beginning};
ghost use Rattle.reader.specs.Work.{work_before, work_after};
ghost use Rattle.reader.specs.Names.{Lent};
ghost use Rattle.reader.specs.Taken.{container_cell, ScalarTaken, ValueTaken};

use crate::begins::{container_room, kind_at, room_for};
use crate::containers::{Container, Source};
use crate::items::{Item, next_item};
use crate::words::{no_spelling, past_byte, scalar};
use lexer::Cursor;
use spec::refusal::Fault;
use tape::fields::{Cell, Name, node_of};
use tape::layout;
use tape::layout::Node;
use tape::moves::store;

// The cursor after a value, and the row after its last.
#[derive(Clone, Copy)]
pub struct Value {
    pub next: Cursor,
    pub end: usize,
}

// A node is stored in a row, with `span` nodes below it.
fn put(nodes: &mut [Node], row: usize, cell: Cell, span: usize)
    ensures { nodes.new ≡ set nodes.old row (row_with cell (span % values)) }
{
    store(nodes, row, node_of(cell, span));
}

// A container's node is stored in its row, when its items are known. They stand in the rows behind it, up to `end`.
fn close(nodes: &mut [Node], row: usize, kind: u16, name: Name, end: usize)
    requires { row < end }
    ensures { nodes.new ≡ set nodes.old row (row_with (container_cell kind name) ((end - row - 1) % values)) }
{
    let value = no_spelling();
    put(
        nodes,
        row,
        Cell {
            kind,
            value,
            name,
            origin: 0,
        },
        end - row - 1,
    );
}

// A scalar of a kind is stored in a row, under a name. A value has begun for each of the text's rows up to this one.
fn scalar_value(
    s: &[u8],
    nodes: &mut [Node],
    at: Cursor,
    kind: u16,
    source: Source,
    name: Name,
    row: usize,
) -> Result<Value, Fault>
    requires kind_value { (beginning (byte s.now at.at) ≡ Some kind) × (kind < array_kind) × (source.base ≤ row) }
    requires lent { (length s.now < values) × (scratch_row ≤ length nodes.old) }
    ensures { ScalarTaken source s.now at.at name row nodes.old nodes.new result }
{
    room_for(source.base, row, at)?;
    let read = scalar(s, at, kind, source.number)?;
    put(
        nodes,
        row,
        Cell {
            kind,
            value: read.spelling,
            name,
            origin: 0,
        },
        0,
    );
    Ok(Value {
        next: read.next,
        end: row + 1,
    })
}

// The same for what is no scalar: a container is stored from `row` on. Its scalars are read in the loop, so that only
// containers take a level of the stack.
fn container(
    s: &[u8],
    nodes: &mut [Node],
    index: &mut [u16],
    at: Cursor,
    levels: u32,
    kind: u16,
    source: Source,
    name: Name,
    row: usize,
) -> Result<Value, Fault>
    requires lent { Lent s.now (record { nodes = nodes.old; index = index.old }) }
    requires kind_value { (beginning (byte s.now at.at) ≡ Some kind) × (array_kind ≤ kind) × (source.base ≤ row) }
    ensures { ValueTaken source s.now at.at levels name row (work_before nodes.old index.old)
        (work_after nodes.new index.new) result }
{
    container_room(levels, source.base, row, at)?;
    let object = kind == layout::OBJECT;
    let left = levels - 1;
    let mut next = past_byte(s, at);
    let mut end = row + 1;
    loop {
        let items = Container {
            object,
            source,
            row,
            end,
        };
        match next_item(s, nodes, index, next, items)? {
            Item::Begins(item) => {
                let sort = kind_at(s, item.next)?;
                if sort < layout::ARRAY {
                    let read = scalar_value(s, nodes, item.next, sort, source, item.name, end)?;
                    next = read.next;
                    end = read.end;
                    continue;
                }
                let inner = container(
                    s, nodes, index, item.next, left, sort, source, item.name, end,
                )?;
                next = inner.next;
                end = inner.end;
            }
            Item::Closed(last) => {
                close(nodes, row, kind, name, end);
                return Ok(Value { next: last, end });
            }
        }
    }
}

// The value at a cursor is stored from `row` on, under a name.
pub fn read_value(
    s: &[u8],
    nodes: &mut [Node],
    index: &mut [u16],
    at: Cursor,
    levels: u32,
    source: Source,
    name: Name,
    row: usize,
) -> Result<Value, Fault>
    requires lent { Lent s.now (record { nodes = nodes.old; index = index.old }) }
    requires base_le_row { source.base ≤ row }
    ensures { ValueTaken source s.now at.at levels name row (work_before nodes.old index.old)
        (work_after nodes.new index.new) result }
{
    let kind = kind_at(s, at)?;
    if kind < layout::ARRAY {
        return scalar_value(s, nodes, at, kind, source, name, row);
    }
    container(s, nodes, index, at, levels, kind, source, name, row)
}
