// The stages of the call: those of the plain call, with the nodes stamped before the run and listed after it. Each
// stage answers with the length of the text that was written, or with the answer of a call that is refused.
ghost use Rattle.tape.specs.Lent.{lent, before};
ghost use Rattle.listing.specs.Call.{outputs_before, outputs_after, list_before};
ghost use Rattle.listing.specs.Stages.{WriteListedIs, RunListedIs, RunPatchIs, CheckedIs};

use crate::lists::list_origins;
use crate::stamps::stamp_texts;
use json_patch::{Answer, check_lengths, read_texts, refusal_answer};
use operations::run;
use shape::shape_of;
use spec::limits;
use spec::refusal::Refusal;
use tape::layout;
use tape::layout::{Node, Texts};
use writer::{fits, write};

// The document, which has `used` rows, is written and its origins listed, if there is room for all of both.
fn write_listed<'a>(
    texts: Texts<'a>,
    output: &mut [u8],
    origins: &mut [u16],
    nodes: &[Node],
    used: usize,
) -> Result<usize, Answer>
    ensures { WriteListedIs (before texts nodes.now) (outputs_before output.old origins.old)
        (outputs_after output.new origins.new) used result }
{
    if !fits(
        texts,
        nodes,
        layout::DOCUMENT,
        limits::MAX_DEPTH,
        output.len(),
    ) {
        return Err(refusal_answer(Refusal::OutputTooShort, 0, 0, 0));
    }
    if origins.len() < used {
        return Err(refusal_answer(Refusal::OutputTooShort, 0, 0, 0));
    }
    let length = write(texts, nodes, layout::DOCUMENT, limits::MAX_DEPTH, output);
    list_origins(nodes, used, origins);
    Ok(length)
}

// The patch, already read and of the right shape, is applied to the document, which has `used` rows.
pub fn run_listed<'a>(
    texts: Texts<'a>,
    output: &mut [u8],
    origins: &mut [u16],
    nodes: &mut [Node],
    index: &mut [u16],
    used: usize,
) -> Result<usize, Answer>
    ensures { RunListedIs (before texts nodes.old) (outputs_before output.old origins.old)
        (outputs_after output.new origins.new) used result }
{
    stamp_texts(nodes, used);
    let rows = run(texts, nodes, index, used)?;
    write_listed(texts, output, origins, nodes, rows)
}

// The patch, already read, is applied.
fn run_patch<'a>(
    texts: Texts<'a>,
    output: &mut [u8],
    origins: &mut [u16],
    nodes: &mut [Node],
    index: &mut [u16],
    used: usize,
) -> Result<usize, Answer>
    ensures { RunPatchIs (before texts nodes.old) (outputs_before output.old origins.old)
        (outputs_after output.new origins.new) used result }
{
    shape_of(texts, nodes, layout::PATCH)?;
    run_listed(texts, output, origins, nodes, index, used)
}

// All of it, where the work area is long enough.
pub fn checked<'a>(
    texts: Texts<'a>,
    output: &mut [u8],
    origins: &mut [u16],
    nodes: &mut [Node],
    index: &mut [u16],
) -> Result<usize, Answer>
    ensures { CheckedIs (lent texts) (list_before output.old origins.old nodes.old index.old)
        (outputs_after output.new origins.new) result }
{
    check_lengths(texts)?;
    let used = read_texts(texts, nodes, index)?;
    run_patch(texts, output, origins, nodes, index, used)
}
