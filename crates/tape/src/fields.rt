// A node's fields, taken apart and put together. Each function is total: a field that is too large loses its upper
// bits.
ghost use Rattle.std.specs.Prelude.{◌≡◌, ◌%◌, ◌<◌};
ghost use Rattle.tape.specs.Layout.{values, kinds, forms, sources};
ghost use Rattle.tape.specs.Fields.{tagged, kind_in, form_in, source_in};
ghost use Rattle.tape.specs.Fields.{name_form_in, name_source_in, value_of, name_of};
ghost use Rattle.tape.specs.Fields.{cell_of, row_with};

use crate::layout::{
    FORMS, HASH, KINDS, LENGTH, NAME_LENGTH, NAME_START, Node, ORIGIN, SOURCES, START, TAGS, VALUES,
};

// Where a text stands, and how it is read there.
#[derive(Clone, Copy)]
pub struct Spelling {
    pub form: u16,
    pub source: u16,
    pub start: u16,
    pub length: u16,
}

// A name: its text, and a hash of that.
#[derive(Clone, Copy)]
pub struct Name {
    pub text: Spelling,
    pub hash: u16,
}

// What a node bears beside its children.
#[derive(Clone, Copy)]
pub struct Cell {
    pub kind: u16,
    pub value: Spelling,
    pub name: Name,
    pub origin: u16,
}

pub fn wide(field: u16) -> usize
    ensures { (result ≡ field) × (result < values) }
{
    field as usize
}

pub fn long(field: u16) -> u64
    ensures { result ≡ field }
{
    field as u64
}

pub fn narrow(n: usize) -> u16
    ensures { result ≡ n % values }
{
    (n % VALUES) as u16
}

pub fn kind_in(tags: u16) -> u16
    ensures { result ≡ kind_in tags }
{
    tags % KINDS
}

fn form_in(tags: u16) -> u16
    ensures { result ≡ form_in tags }
{
    tags / KINDS % FORMS
}

fn source_in(tags: u16) -> u16
    ensures { result ≡ source_in tags }
{
    tags / (KINDS * FORMS) % SOURCES
}

fn name_form_in(tags: u16) -> u16
    ensures { result ≡ name_form_in tags }
{
    tags / (KINDS * FORMS * SOURCES) % FORMS
}

fn name_source_in(tags: u16) -> u16
    ensures { result ≡ name_source_in tags }
{
    tags / (KINDS * FORMS * SOURCES * FORMS) % SOURCES
}

fn tags_of(kind: u16, form: u16, source: u16, name_form: u16, name_source: u16) -> u16
    ensures { result ≡ tagged (kind % kinds) (form % forms) (source % sources) (name_form % forms)
        (name_source % sources) }
{
    kind % KINDS
        + KINDS
            * (form % FORMS
                + FORMS
                    * (source % SOURCES
                        + SOURCES * (name_form % FORMS + FORMS * (name_source % SOURCES))))
}

// The text of a number or a string.
pub fn value_of(node: Node) -> Spelling
    ensures { result ≡ value_of node }
{
    let tags = node[TAGS];
    Spelling {
        form: form_in(tags),
        source: source_in(tags),
        start: node[START],
        length: node[LENGTH],
    }
}

pub fn name_of(node: Node) -> Name
    ensures { result ≡ name_of node }
{
    let tags = node[TAGS];
    Name {
        text: Spelling {
            form: name_form_in(tags),
            source: name_source_in(tags),
            start: node[NAME_START],
            length: node[NAME_LENGTH],
        },
        hash: node[HASH],
    }
}

// What a node bears.
pub fn cell_of(node: Node) -> Cell
    ensures { result ≡ cell_of node }
{
    Cell {
        kind: kind_in(node[TAGS]),
        value: value_of(node),
        name: name_of(node),
        origin: node[ORIGIN],
    }
}

// The node that bears it, with `span` nodes below it.
pub fn node_of(cell: Cell, span: usize) -> Node
    ensures { result ≡ row_with cell (span % values) }
{
    let value = cell.value;
    let name = cell.name;
    let text = name.text;
    [
        text.start,
        text.length,
        value.start,
        value.length,
        narrow(span),
        name.hash,
        tags_of(cell.kind, value.form, value.source, text.form, text.source),
        cell.origin,
    ]
}
