// The stages of the call, in the order of SPECIFICATION 16.4: those of the plain call, then the undo's. Each stage
// answers with the lengths of the texts that were written, or with the answer of a call that is refused.
ghost use Rattle.tape.specs.Lent.{lent, before};
ghost use Rattle.json_patch.specs.Call.{memory_before};
ghost use Rattle.undo.specs.Call.{with_before, Outputs};
ghost use Rattle.undo.specs.Stages.{WriteBothIs, RunPatchIs, CheckedIs};

use crate::answer::Written;
use crate::logged::Logged;
use crate::runs::run;
use json_patch::{Answer, check_lengths, read_texts, refusal_answer};
use shape::shape_of;
use spec::limits;
use spec::refusal::Refusal;
use tape::layout;
use tape::layout::{Node, Texts};
use undo_log::log::{Log, begin, copy_out, text_length, verdict};
use writer::{fits, write};

// The document and the undo are written, where nothing is refused.
fn write_both<'a>(
    texts: Texts<'a>,
    output: &mut [u8],
    undo: &mut [u8],
    nodes: &[Node],
    log: Log,
    work: &[u8],
) -> Result<Written, Answer>
    ensures { WriteBothIs (before texts nodes.now)
        (record { document = output.old; undo = undo.old })
        (record { document = output.new; undo = undo.new }) work.now log result }
{
    if !fits(
        texts,
        nodes,
        layout::DOCUMENT,
        limits::MAX_DEPTH,
        output.len(),
    ) {
        return Err(refusal_answer(Refusal::OutputTooShort, 0, 0, 0));
    }
    verdict(log).map_err(|refusal| refusal_answer(refusal, 2, 0, 0))?;
    let length = text_length(log);
    if undo.len() < length {
        return Err(refusal_answer(Refusal::OutputTooShort, 0, 0, 0));
    }
    let document = write(texts, nodes, layout::DOCUMENT, limits::MAX_DEPTH, output);
    copy_out(log, work, undo);
    Ok(Written {
        document,
        undo: length,
    })
}

// The patch, read before, is applied to the document, which has `used` rows.
fn run_patch<'a>(
    texts: Texts<'a>,
    output: &mut [u8],
    undo: &mut [u8],
    nodes: &mut [Node],
    index: &mut [u16],
    work: &mut [u8],
    used: usize,
) -> Result<Written, Answer>
    ensures { RunPatchIs (before texts nodes.old)
        (record { document = output.old; undo = undo.old })
        (record { document = output.new; undo = undo.new }) work.old used result }
{
    shape_of(texts, nodes, layout::PATCH)?;
    let begun = Logged {
        rows: used,
        log: begin(work),
    };
    let logged = run(texts, nodes, index, begun, work)?;
    write_both(texts, output, undo, nodes, logged.log, work)
}

// All stages, where the work area and the buffer are long enough.
pub fn checked<'a>(
    texts: Texts<'a>,
    output: &mut [u8],
    undo: &mut [u8],
    nodes: &mut [Node],
    index: &mut [u16],
    work: &mut [u8],
) -> Result<Written, Answer>
    ensures { CheckedIs (lent texts) (with_before (memory_before output.old nodes.old index.old) undo.old work.old)
        (record { document = output.new; undo = undo.new }) result }
{
    check_lengths(texts)?;
    let used = read_texts(texts, nodes, index)?;
    run_patch(texts, output, undo, nodes, index, work, used)
}
