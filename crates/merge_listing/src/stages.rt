// The stages of the call: those of the merge, with the nodes stamped before the trees are merged, and listed
// afterwards. Each stage answers with the length of the text that was written, or with the answer of a call that is
// refused.
ghost use Rattle.std.specs.Prelude.{◌≡◌, ◌≤◌, length};
ghost use Rattle.tape.specs.Layout.{rows};
ghost use Rattle.tape.specs.Lent.{lent, before};
ghost use Rattle.index.specs.Slots.{slots};
ghost use Rattle.listing.specs.Call.{outputs_before, outputs_after, list_before};
ghost use Rattle.merge_listing.specs.Stages.{WriteListedIs, RunListedIs, CheckedListedIs};

use crate::stamps::stamp_both;
use json_patch::{Answer, check_lengths, read_texts, refusal_answer};
use listing::list_origins;
use merge::merge_read;
use spec::limits;
use spec::refusal::Refusal;
use tape::layout;
use tape::layout::{Node, Texts};
use tape::nodes::{end_of, kind};
use writer::{fits, write};

// The value in the row `at`, which has `count` rows, is written and its origins listed, where there is room for all of
// both.
fn write_listed<'a>(
    texts: Texts<'a>,
    output: &mut [u8],
    origins: &mut [u16],
    nodes: &[Node],
    at: usize,
    count: usize,
) -> Result<usize, Answer>
    requires { at ≤ length nodes.now }
    ensures { WriteListedIs (before texts nodes.now) (outputs_before output.old origins.old)
        (outputs_after output.new origins.new) at count result }
{
    if !fits(texts, nodes, at, limits::MAX_DEPTH, output.len()) {
        return Err(refusal_answer(Refusal::OutputTooShort, 0, 0, 0));
    }
    if origins.len() < count {
        return Err(refusal_answer(Refusal::OutputTooShort, 0, 0, 0));
    }
    let length = write(texts, nodes, at, limits::MAX_DEPTH, output);
    list_origins(&nodes[at..], count, origins);
    Ok(length)
}

// The patch, read before, is merged with the document, which has `used` rows. A patch that is no object replaces the
// whole: it is written as it stands.
fn run_listed<'a>(
    texts: Texts<'a>,
    output: &mut [u8],
    origins: &mut [u16],
    nodes: &mut [Node],
    index: &mut [u16],
    used: usize,
) -> Result<usize, Answer>
    requires { (slots ≤ length index.old) × (length nodes.old ≡ rows) }
    ensures { RunListedIs (before texts nodes.old) (outputs_before output.old origins.old)
        (outputs_after output.new origins.new) used result }
{
    stamp_both(nodes, used);
    if kind(nodes, layout::PATCH) != layout::OBJECT {
        let count = end_of(nodes, layout::PATCH) - layout::PATCH;
        return write_listed(texts, output, origins, nodes, layout::PATCH, count);
    }
    let next = merge_read(texts, nodes, index);
    if layout::ROWS < next {
        return Err(refusal_answer(Refusal::TooManyNodes, 0, 0, 0));
    }
    let count = next - layout::SCRATCH;
    write_listed(texts, output, origins, nodes, layout::SCRATCH, count)
}

// All stages, where the work area has its stated length.
pub fn checked_listed<'a>(
    texts: Texts<'a>,
    output: &mut [u8],
    origins: &mut [u16],
    nodes: &mut [Node],
    index: &mut [u16],
) -> Result<usize, Answer>
    requires { (slots ≤ length index.old) × (length nodes.old ≡ rows) }
    ensures { CheckedListedIs (lent texts) (list_before output.old origins.old nodes.old index.old)
        (outputs_after output.new origins.new) result }
{
    check_lengths(texts)?;
    let used = read_texts(texts, nodes, index)?;
    run_listed(texts, output, origins, nodes, index, used)
}
