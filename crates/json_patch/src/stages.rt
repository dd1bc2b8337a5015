// The stages of the call, in the order of SPECIFICATION 2.3: both lengths, the whole document read, the whole patch
// read, the shape of every operation, the operations one after another, then the result written. Each stage answers
// with the length of the text that was written, or with the answer of a call that is refused.
ghost use Rattle.tape.specs.Lent.{lent, before};
ghost use Rattle.json_patch.specs.Call.{memory_before};
ghost use Rattle.json_patch.specs.Stages.{WriteOutIs, RunPatchIs, CheckedIs};

use crate::answer::{Answer, refusal_answer};
use crate::texts::{check_lengths, read_texts};
use operations::run;
use shape::shape_of;
use spec::limits;
use spec::refusal::Refusal;
use tape::layout;
use tape::layout::{Node, Texts};
use writer::{fits, write};

// The document is written, where the output has room for all of it.
pub fn write_out<'a>(texts: Texts<'a>, output: &mut [u8], nodes: &[Node]) -> Result<usize, Answer>
    ensures { WriteOutIs (before texts nodes.now) output.old output.new result }
{
    if !fits(
        texts,
        nodes,
        layout::DOCUMENT,
        limits::MAX_DEPTH,
        output.len(),
    ) {
        return Err(refusal_answer(Refusal::OutputTooShort, 0, 0, 0));
    }
    let length = write(texts, nodes, layout::DOCUMENT, limits::MAX_DEPTH, output);
    Ok(length)
}

// The patch, already read, is applied to the document, which has `used` rows.
fn run_patch<'a>(
    texts: Texts<'a>,
    output: &mut [u8],
    nodes: &mut [Node],
    index: &mut [u16],
    used: usize,
) -> Result<usize, Answer>
    ensures { RunPatchIs (before texts nodes.old) output.old output.new used result }
{
    shape_of(texts, nodes, layout::PATCH)?;
    run(texts, nodes, index, used)?;
    write_out(texts, output, nodes)
}

// All of it, where the work area is long enough.
pub fn checked<'a>(
    texts: Texts<'a>,
    output: &mut [u8],
    nodes: &mut [Node],
    index: &mut [u16],
) -> Result<usize, Answer>
    ensures { CheckedIs (lent texts) (memory_before output.old nodes.old index.old) output.new result }
{
    check_lengths(texts)?;
    let used = read_texts(texts, nodes, index)?;
    run_patch(texts, output, nodes, index, used)
}
