// The two calls.
ghost use Rattle.fragment.specs.Scan.{KeptTable};
ghost use Rattle.fragment.specs.Call.{WriteIs, ReadIs, answer_of};

use crate::answer::Answer;
use crate::kept::KEPT;
use crate::octets::fragment_at;
use crate::refusal::LinkRefusal;
use crate::scan::verdict_of;
use crate::writing::{fits, put_link, put_octets};
use spec::limits;

// The length of the link that was written to the output.
fn write(pointer: &[u8], output: &mut [u8], kept: &[u8; 256]) -> Result<usize, LinkRefusal>
    requires { KeptTable kept.now }
    ensures { WriteIs pointer.now output.old output.new (answer_of result) }
{
    if verdict_of(pointer).is_err() {
        return Err(LinkRefusal::MalformedPointer);
    }
    if !fits(pointer, output.len(), kept) {
        return Err(LinkRefusal::OutputTooShort);
    }
    Ok(put_link(pointer, output, kept))
}

// The length of the pointer that was written to the output.
fn read(link: &[u8], output: &mut [u8], kept: &[u8; 256]) -> Result<usize, LinkRefusal>
    requires { KeptTable kept.now }
    ensures { ReadIs link.now output.old output.new (answer_of result) }
{
    if limits::MAX_BYTES < link.len() {
        return Err(LinkRefusal::InputTooLong);
    }
    if link.first() != Some(&b'#') {
        return Err(LinkRefusal::BadLink);
    }
    let n = fragment_at(link, 1, kept)?;
    if output.len() < n {
        return Err(LinkRefusal::OutputTooShort);
    }
    Ok(put_octets(link, 1, output, kept))
}

// The link of a pointer is written to the output, or the call is refused: 10 for a pointer that is malformed or not
// UTF-8, then 16.
pub fn write_link(pointer: &[u8], output: &mut [u8]) -> Answer
    ensures { WriteIs pointer.now output.old output.new result }
{
    Answer::from(write(pointer, output, &KEPT))
}

// The pointer of a link is written to the output, or the call is refused: 2 for a link over 32,768 bytes; 22 for no
// `#` in front, a bad byte, a bad percent or bytes that are not UTF-8; then 10; then 16.
pub fn read_link(link: &[u8], output: &mut [u8]) -> Answer
    ensures { ReadIs link.now output.old output.new result }
{
    Answer::from(read(link, output, &KEPT))
}
