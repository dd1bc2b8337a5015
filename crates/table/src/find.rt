// A member found by its name.
ghost use Rattle.std.specs.Prelude.{◌≡◌, ◌≤◌, length};
ghost use Rattle.lexer.specs.Hash.{hash};
ghost use Rattle.tape.specs.Lent.{lent, before};
ghost use Rattle.table.specs.Meaning.{short_hash};
ghost use Rattle.table.specs.Find.{same_name, is_named, QuietIs, FindIs, FindAsciiIs};

use crate::spellings::{same_spelling, spells};
use lexer::mix;
use tape::fields::{Name, kind_in, name_of, wide};
use tape::layout::{ARRAY, HASH, Node, SPAN, TAGS, Texts};
use tape::nodes::{BLOCK, childless};

// Whether two names are the same. Their texts are compared only where their hashes are equal.
pub fn same_name<'a>(texts: Texts<'a>, a: Name, b: Name) -> bool
    ensures { result ≡ same_name (lent texts) a b }
{
    a.hash == b.hash && same_spelling(texts, a.text, b.text)
}

// True only if the BLOCK rows from this one on are before `stop`, no node in them has children and no name has this
// hash. Such rows are passed together: no turn waits for another row's span.
fn quiet(nodes: &[Node], row: usize, stop: usize, hash: u16) -> bool
    requires { (row ≤ stop) × (stop ≤ length nodes.now) }
    ensures { QuietIs nodes.now row stop hash result }
{
    if row % BLOCK != 0 || stop - row < BLOCK {
        return false;
    }
    let block = &nodes[row..row + BLOCK];
    block.iter().all(|node| node[HASH] != hash) && childless(block)
}

// The row of the first of the trees in the rows from `start` up to `end` that has the name.
pub fn find<'a>(
    texts: Texts<'a>,
    nodes: &[Node],
    start: usize,
    end: usize,
    name: Name,
) -> Option<usize>
    ensures { FindIs (before texts nodes.now) start end name result }
{
    let stop = end.min(nodes.len());
    let mut row = start;
    while row < stop {
        if quiet(nodes, row, stop, name.hash) {
            row += BLOCK;
            continue;
        }
        if same_name(texts, name_of(nodes[row]), name) {
            return Some(row);
        }
        // a scalar has no children; where its kind is predicted, the next turn does not wait for the span
        if kind_in(nodes[row][TAGS]) < ARRAY {
            row += 1;
            continue;
        }
        row = row + 1 + wide(nodes[row][SPAN]);
    }
    None
}

// The hash of a text that is given by its bytes, each of which is a character.
fn hash_ascii(name: &[u8]) -> u32
    ensures { result ≡ hash name.now }
{
    name.iter().fold(0, |h, b| mix(h, u32::from(*b)))
}

// The 16 bits of a hash that a node has room for: the lowest, since the last character changes them.
pub fn short(hash: u32) -> u16
    ensures { result ≡ short_hash hash }
{
    (hash % 65536) as u16
}

// Whether a name is the text that is given by its bytes and has the hash `h`.
fn is_named<'a>(texts: Texts<'a>, own: Name, h: u16, name: &[u8]) -> bool
    ensures { result ≡ is_named (lent texts) own h name.now }
{
    own.hash == h && spells(texts, own.text, name)
}

// The same for a name that is given by its bytes, each of which is a character. Its loop is not that of `find`: one for
// both, by a test, was proved, and took up to twice as long for the few members of an operation.
pub fn find_ascii<'a>(
    texts: Texts<'a>,
    nodes: &[Node],
    start: usize,
    end: usize,
    name: &[u8],
) -> Option<usize>
    ensures { FindAsciiIs (before texts nodes.now) start end name.now result }
{
    let h = short(hash_ascii(name));
    let stop = end.min(nodes.len());
    let mut row = start;
    while row < stop {
        if is_named(texts, name_of(nodes[row]), h, name) {
            return Some(row);
        }
        if kind_in(nodes[row][TAGS]) < ARRAY {
            row += 1;
            continue;
        }
        row = row + 1 + wide(nodes[row][SPAN]);
    }
    None
}
