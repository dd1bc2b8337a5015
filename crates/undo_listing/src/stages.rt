// The stages of the call: those of the call with an undo, with the nodes stamped before the run and listed after it.
// Each stage answers with the lengths of the texts that were written, or with the answer of a call that is refused.
ghost use Rattle.tape.specs.Lent.{lent, before};
ghost use Rattle.undo_listing.specs.Call.{outputs_before, outputs_after, memory_before};
ghost use Rattle.undo_listing.specs.Stages.{WriteAllIs, RunPatchIs, CheckedIs};

use json_patch::{Answer, check_lengths, read_texts, refusal_answer};
use listing::{list_origins, stamp_texts};
use shape::shape_of;
use spec::limits;
use spec::refusal::Refusal;
use tape::layout;
use tape::layout::{Node, Texts};
use undo::{Logged, Written, run};
use undo_log::log::{Log, begin, copy_out, text_length, verdict};
use writer::{fits, write};

// The document, which has `used` rows, its origins and the undo are written, where nothing is refused. A short list is
// refused where a short output for the document is, before the undo is judged.
fn write_all<'a>(
    texts: Texts<'a>,
    output: &mut [u8],
    undo: &mut [u8],
    origins: &mut [u16],
    nodes: &[Node],
    used: usize,
    log: Log,
    work: &[u8],
) -> Result<Written, Answer>
    ensures { WriteAllIs (before texts nodes.now) (outputs_before output.old undo.old origins.old)
        (outputs_after output.new undo.new origins.new) used work.now log result }
{
    let judged = verdict(log);
    let length = text_length(log);
    if origins.len() < used {
        return Err(refusal_answer(Refusal::OutputTooShort, 0, 0, 0));
    }
    if !fits(
        texts,
        nodes,
        layout::DOCUMENT,
        limits::MAX_DEPTH,
        output.len(),
    ) {
        return Err(refusal_answer(Refusal::OutputTooShort, 0, 0, 0));
    }
    judged.map_err(|refusal| refusal_answer(refusal, 2, 0, 0))?;
    if undo.len() < length {
        return Err(refusal_answer(Refusal::OutputTooShort, 0, 0, 0));
    }
    let document = write(texts, nodes, layout::DOCUMENT, limits::MAX_DEPTH, output);
    list_origins(nodes, used, origins);
    copy_out(log, work, undo);
    Ok(Written {
        document,
        undo: length,
    })
}

// The patch, read before, is applied to the document, which has `used` rows.
fn run_patch<'a>(
    texts: Texts<'a>,
    output: &mut [u8],
    undo: &mut [u8],
    origins: &mut [u16],
    nodes: &mut [Node],
    index: &mut [u16],
    work: &mut [u8],
    used: usize,
) -> Result<Written, Answer>
    ensures { RunPatchIs (before texts nodes.old) (outputs_before output.old undo.old origins.old)
        (outputs_after output.new undo.new origins.new) work.old used result }
{
    shape_of(texts, nodes, layout::PATCH)?;
    stamp_texts(nodes, used);
    let begun = Logged {
        rows: used,
        log: begin(work),
    };
    let logged = run(texts, nodes, index, begun, work)?;
    write_all(
        texts,
        output,
        undo,
        origins,
        nodes,
        logged.rows,
        logged.log,
        work,
    )
}

// All stages, where the work area and the buffer are long enough.
pub fn checked<'a>(
    texts: Texts<'a>,
    output: &mut [u8],
    undo: &mut [u8],
    origins: &mut [u16],
    nodes: &mut [Node],
    index: &mut [u16],
    work: &mut [u8],
) -> Result<Written, Answer>
    ensures { CheckedIs (lent texts) (memory_before output.old undo.old origins.old nodes.old index.old work.old)
        (outputs_after output.new undo.new origins.new) result }
{
    check_lengths(texts)?;
    let used = read_texts(texts, nodes, index)?;
    run_patch(texts, output, undo, origins, nodes, index, work, used)
}
