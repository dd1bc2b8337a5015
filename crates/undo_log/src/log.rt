// What is noted of the undo while the patch runs.
ghost use Rattle.std.specs.Prelude.{◌≡◌};
ghost use Rattle.undo_log.specs.Log.{BeginIs, VerdictIs, LengthIs, RestIs, CopyOutIs, cleared};

use spec::limits;
use spec::refusal::Refusal;
use tape::layout::PLAIN_STRING;
use writer::{put_byte, put_part};

// How many operations, whether no value of them is too deep, how many values, and how many bytes of text. Each count
// is cut off one past its limit. The text stands at the end of the buffer, as long as it is within its limit.
// The buffer is no field: crate undo lends it to the calls between two notes as well, and a `&mut` in a struct that all
// of its functions take and answer would be no plainer.
#[derive(Clone, Copy, Debug, PartialEq, Eq)]
pub struct Log {
    pub count: usize,
    pub shallow: bool,
    pub nodes: usize,
    pub bytes: usize,
}

// No operation is noted: the text is the closing bracket.
pub fn begin(work: &mut [u8]) -> Log
    ensures { BeginIs work.old work.new result }
{
    let end = work.len();
    if end != 0 {
        work[end - 1] = b']';
    }
    Log {
        count: 0,
        shallow: true,
        nodes: 1,
        bytes: 1,
    }
}

// Why an undo that could not be read back is refused.
pub fn verdict(log: Log) -> Result<(), Refusal>
    ensures { VerdictIs log result }
{
    if limits::MAX_OPERATIONS < log.count {
        return Err(Refusal::TooManyOperations);
    }
    if !log.shallow {
        return Err(Refusal::TooDeep);
    }
    if limits::MAX_NODES < log.nodes {
        return Err(Refusal::TooManyNodes);
    }
    if limits::MAX_BYTES < log.bytes {
        return Err(Refusal::InputTooLong);
    }
    Ok(())
}

// The length of the undo's text, where it is within its limit. The text of no operation is `[]`.
pub fn text_length(log: Log) -> usize
    ensures { LengthIs log result }
{
    if log.count == 0 { 2 } else { log.bytes }
}

// How many bytes of it stand behind the opening bracket.
fn rest_length(log: Log) -> usize
    ensures { RestIs log result }
{
    text_length(log).saturating_sub(1)
}

// The undo's text is written to the front of `out`, which has room for it.
pub fn copy_out(log: Log, work: &[u8], out: &mut [u8])
    ensures { CopyOutIs log work.now out.old out.new }
{
    let Some(start) = work.len().checked_sub(rest_length(log)) else {
        return;
    };
    let put = put_byte(b'[', out);
    put_part(PLAIN_STRING, &work[start..], &mut out[put..]);
}

// The buffer is made zero.
pub fn clear(work: &mut [u8])
    ensures { work.new ≡ cleared work.old }
{
    if limits::MAX_BYTES <= work.len() {
        work[..limits::MAX_BYTES].fill(0);
    }
}
