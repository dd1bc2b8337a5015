// A whole text.
ghost use Rattle.std.specs.Prelude.{◌≡◌};
ghost use Rattle.spec.specs.Fault.{outcome};
ghost use Rattle.tape.specs.Lent.{lent};
ghost use Rattle.reader.specs.Work.{work_before, work_after};
ghost use Rattle.reader.specs.Names.{Lent};
ghost use Rattle.reader.specs.Filled.{SameBeyond};
ghost use Rattle.reader.specs.Texts.{refusal_before, ReadIs, DocumentIs, PatchIs};

use crate::containers::Source;
use crate::values::{Value, read_value};
use crate::words::no_name;
use index;
use lexer::Cursor;
use spec::limits;
use spec::refusal::{Fault, Refusal};
use tape::layout;
use tape::layout::{Node, Texts};

// The names of a text of at most this many bytes are looked up quickly even in an index that is not empty.
const FEW_BYTES: usize = 512;

// The index is made empty before a text of this length is read. It need not be empty to be right, only to be quick;
// for a short text it is left as it is.
fn empty_index(index: &mut [u16], length: usize)
    ensures { SameBeyond index.old index.new }
{
    if length <= FEW_BYTES {
        return;
    }
    index::empty(index);
}

// JSON-text = ws value ws, stored in the rows of the text.
fn read(s: &[u8], nodes: &mut [Node], index: &mut [u16], source: Source) -> Result<Value, Fault>
    requires { Lent s.now (record { nodes = nodes.old; index = index.old }) }
    ensures { ReadIs source s.now (work_before nodes.old index.old) (work_after nodes.new index.new) result }
{
    let first = (Cursor { at: 0 }).blanks(s);
    let value = read_value(
        s,
        nodes,
        index,
        first,
        limits::MAX_DEPTH,
        source,
        no_name(),
        source.base,
    )?;
    let next = value.next.blanks(s);
    if next.at == s.len() {
        return Ok(Value {
            next,
            end: value.end,
        });
    }
    Err(Refusal::NotJson.at(next.at))
}

// The same. The index is made empty before, unless the text is short.
fn read_anew(
    s: &[u8],
    nodes: &mut [Node],
    index: &mut [u16],
    source: Source,
) -> Result<Value, Fault>
    requires { Lent s.now (record { nodes = nodes.old; index = index.old }) }
    ensures { ReadIs source s.now (work_before nodes.old index.old) (work_after nodes.new index.new) result }
{
    empty_index(index, s.len());
    read(s, nodes, index, source)
}

// The refusals before a text is read: the table or the index is too short, or the text too long.
#[tactic(auto, using(lexer::proofs::Auto::auto), unfolding(crate::specs::Texts::refusal_before, spec::specs::Fault::outcome_by, spec::specs::Fault::number_of))]
fn refusal_before(s: &[u8], nodes: &[Node], index: &[u16]) -> Result<(), Fault>
    ensures { outcome result ≡ refusal_before (work_before nodes.now index.now) s.now }
{
    if nodes.len() < layout::ROWS {
        return Err(Refusal::WorkTooShort.at(0));
    }
    if index.len() < index::SLOTS {
        return Err(Refusal::WorkTooShort.at(0));
    }
    if limits::MAX_BYTES < s.len() {
        return Err(Refusal::InputTooLong.at(0));
    }
    Ok(())
}

// The document is read into the rows from DOCUMENT on. Where the table or the index is too short, or the text too
// long, nothing changes.
pub fn read_document<'a>(
    texts: Texts<'a>,
    nodes: &mut [Node],
    index: &mut [u16],
) -> Result<Value, Fault>
    ensures { DocumentIs (lent texts) (work_before nodes.old index.old) (work_after nodes.new index.new) result }
{
    let s = texts[0];
    refusal_before(s, nodes, index)?;
    let document = Source {
        number: layout::IN_DOCUMENT,
        base: layout::DOCUMENT,
    };
    read_anew(s, nodes, index, document)
}

// The same for the patch, which is read into the rows from PATCH on.
pub fn read_patch<'a>(
    texts: Texts<'a>,
    nodes: &mut [Node],
    index: &mut [u16],
) -> Result<Value, Fault>
    ensures { PatchIs (lent texts) (work_before nodes.old index.old) (work_after nodes.new index.new) result }
{
    let s = texts[1];
    refusal_before(s, nodes, index)?;
    let patch = Source {
        number: layout::IN_PATCH,
        base: layout::PATCH,
    };
    read_anew(s, nodes, index, patch)
}
