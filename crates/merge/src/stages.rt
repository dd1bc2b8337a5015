// The stages of the call: both lengths, the whole document read, the whole patch read, the two merged, then the result
// written. Each stage answers with the length of the text that was written, or with the answer of a call that is
// refused.
ghost use Rattle.std.specs.Prelude.{◌≡◌, ◌≤◌, length};
ghost use Rattle.tape.specs.Layout.{rows};
ghost use Rattle.tape.specs.Lent.{lent, before};
ghost use Rattle.index.specs.Slots.{slots};
ghost use Rattle.json_patch.specs.Call.{memory_before};
ghost use Rattle.merge.specs.Stages.{WriteAtIs, RunMergeIs, CheckedMergeIs};

use crate::trees::merge_trees;
use json_patch::{Answer, check_lengths, read_texts, refusal_answer};
use spec::limits;
use spec::refusal::Refusal;
use tape::layout;
use tape::layout::{Node, Texts};
use tape::nodes::kind;
use writer::{fits, write};

// The value in a row is written, where the output has room for all of it.
fn write_at<'a>(
    texts: Texts<'a>,
    output: &mut [u8],
    nodes: &[Node],
    at: usize,
) -> Result<usize, Answer>
    ensures { WriteAtIs (before texts nodes.now) at output.old output.new result }
{
    if !fits(texts, nodes, at, limits::MAX_DEPTH, output.len()) {
        return Err(refusal_answer(Refusal::OutputTooShort, 0, 0, 0));
    }
    let length = write(texts, nodes, at, limits::MAX_DEPTH, output);
    Ok(length)
}

// The patch, read before, is merged with the document. A patch that is no object replaces the whole: it is written as
// it stands.
fn run_merge<'a>(
    texts: Texts<'a>,
    output: &mut [u8],
    nodes: &mut [Node],
    index: &mut [u16],
) -> Result<usize, Answer>
    requires { (slots ≤ length index.old) × (length nodes.old ≡ rows) }
    ensures { RunMergeIs (before texts nodes.old) output.old output.new result }
{
    if kind(nodes, layout::PATCH) != layout::OBJECT {
        return write_at(texts, output, nodes, layout::PATCH);
    }
    if layout::ROWS < merge_trees(texts, nodes, index) {
        return Err(refusal_answer(Refusal::TooManyNodes, 0, 0, 0));
    }
    write_at(texts, output, nodes, layout::SCRATCH)
}

// All stages, where the work area has its stated length.
pub fn checked_merge<'a>(
    texts: Texts<'a>,
    output: &mut [u8],
    nodes: &mut [Node],
    index: &mut [u16],
) -> Result<usize, Answer>
    requires { (slots ≤ length index.old) × (length nodes.old ≡ rows) }
    ensures { CheckedMergeIs (lent texts) (memory_before output.old nodes.old index.old) output.new result }
{
    check_lengths(texts)?;
    read_texts(texts, nodes, index)?;
    run_merge(texts, output, nodes, index)
}
