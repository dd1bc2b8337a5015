// The line that the patch tool prints: SPECIFICATION 10.2. `run` makes it of a document and a patch, `report` of
// an answer of the call, which `print_report` prints.
//
// What is proved: the bytes laid down are those of the definition `line_of` (specs/Line), of the answer that the
// definition `answer` of crate `spec` gives, as many as there is room for; behind them the buffer is as it was. Where
// it has 84 bytes or more, there is room for every line. `put_bytes` and `put_two_fields` lay down pieces of other
// lines in the same way.
#![tactic(auto)]

mod pieces; // the pieces of the line

ghost use Rattle.json_patch.specs.Call.{given, memory_before, memory_after};
ghost use Rattle.writer.specs.Writing.{Placed};
ghost use Rattle.report.specs.Report.{ending, RunIs};

use json_patch::{Answer, apply};
use pieces::put_ending;
pub use pieces::{put_bytes, put_two_fields};
use std::io;
use tape::layout::Node;

// What ends the line is laid down behind the text that the call has left in the first `length` bytes of the output: a
// newline, or, since a refusal leaves no text, all of the refusal's line. The answer is the length of the line.
pub fn report(answer: Answer, output: &mut [u8]) -> usize
    ensures { Placed (ending answer) answer.length output.old output.new result }
{
    let at = answer.length;
    if output.len() < at {
        return output.len();
    }
    let n = put_ending(answer, &mut output[at..]);
    at + n
}

// The answer's line, printed. It is laid down in the output, which begins with the text.
pub fn print_report<P: Print>(rt: &P, answer: Answer, output: &mut [u8]) -> io::Result<()> {
    let n = report(answer, output);
    rt.write_all(&output[..n])
}

// The patch is applied to the document, with all of `line` but its last byte lent as output, and the line laid down
// in `line`. The answer is its length. `nodes` and `index` are the work area, as `apply` takes it.
pub fn run<'a>(
    document: &'a [u8],
    patch: &'a [u8],
    line: &mut [u8],
    nodes: &mut [Node],
    index: &mut [u16],
) -> usize
    ensures { RunIs (given document.now patch.now) (memory_before line.old nodes.old index.old)
        (memory_after line.new nodes.new index.new) result }
{
    let room = line.len().saturating_sub(1);
    let answer = apply(document, patch, &mut line[..room], nodes, index);
    report(answer, line)
}
