// The two calls.
ghost use Rattle.intel_hex.specs.Call.{WriteIs, ReadIs, answer_of};

use crate::answer::Answer;
use crate::reading::{measure_text, put_text};
use crate::refusal::{HexFault, HexRefusal};
use crate::writing::{hex_length, put_hex};

// The most bytes of a text that is written.
const MAX_TEXT: usize = 65_536;

// The length of the records that were written to the output.
fn write(text: &[u8], output: &mut [u8]) -> Result<usize, HexFault>
    ensures { WriteIs text.now output.old output.new (answer_of result) }
{
    if MAX_TEXT < text.len() {
        return Err(HexRefusal::InputTooLong.at(0));
    }
    if output.len() < hex_length(text) {
        return Err(HexRefusal::OutputTooShort.at(0));
    }
    Ok(put_hex(text, output))
}

// The length of the text that was written to the output.
fn read(hex: &[u8], output: &mut [u8]) -> Result<usize, HexFault>
    ensures { ReadIs hex.now output.old output.new (answer_of result) }
{
    let n = measure_text(hex)?;
    if output.len() < n {
        return Err(HexRefusal::OutputTooShort.at(0));
    }
    Ok(put_text(hex, output))
}

// A text is written as Intel HEX to the output, or the call is refused: 2 for a text over 65,536 bytes, then 16.
pub fn write_hex(text: &[u8], output: &mut [u8]) -> Answer
    ensures { WriteIs text.now output.old output.new result }
{
    Answer::from(write(text, output))
}

// The text of Intel HEX is written to the output, or the call is refused, with the line as the place: 21 anything
// after the end record; 18 not a record; 19 wrong sum; 20 wrong address; 21 no end record; then 16.
pub fn read_hex(hex: &[u8], output: &mut [u8]) -> Answer
    ensures { ReadIs hex.now output.old output.new result }
{
    Answer::from(read(hex, output))
}
