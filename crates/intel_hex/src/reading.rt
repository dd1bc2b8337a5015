// A text of lines measured, and its data laid down in the output.
ghost use Rattle.std.specs.Prelude.{◌≡◌, ◌+◌, ◌*◌, ◌<◌, ◌≤◌, true, length};
ghost use Rattle.text.specs.Written.{Stored, LaidDown};
ghost use Rattle.intel_hex.specs.Refusal.{outcome};
ghost use Rattle.intel_hex.specs.Reading.{all_hex, bytes_at, read_text};
ghost use Rattle.intel_hex.specs.Steps.{sized, text_of, Accepted};

use crate::digits::hex_byte;
use crate::lines::{ending, step_at};
use crate::refusal::{HexFault, HexRefusal};
use crate::writing::put;

// How many bytes a text has. The whole text is read, and nothing written.
pub fn measure_text(s: &[u8]) -> Result<usize, HexFault>
    ensures { outcome result ≡ sized 0 (read_text s.now) }
{
    let mut rest = s;
    let mut line = 1;
    let mut n = 0;
    while !rest.is_empty() {
        let Some(record) = step_at(rest, line, n)? else {
            return Ok(n);
        };
        rest = &rest[record.width..];
        line += 1;
        n += record.count;
    }
    Err(HexRefusal::WrongEnd.at(line))
}

// The n bytes of data of a line, from a place of the output on; the answer is the place after them.
fn put_data(t: &[u8], n: usize, out: &mut [u8], at: usize) -> usize
    requires { (9 + 2 * n ≤ length t.now) × (all_hex n t.now 9 ≡ true) × (at + n < 0x1_0000_0000_0000_0000) }
    ensures { Stored (bytes_at n t.now 9) at out.old out.new result }
{
    for i in 0..n {
        put(out, at + i, hex_byte(t, 9 + 2 * i).unwrap());
    }
    at + n
}

// The data of a text that is read, at the front of the output; the answer is their number.
pub fn put_text(s: &[u8], out: &mut [u8]) -> usize
    requires { Accepted s.now }
    ensures { LaidDown (text_of (read_text s.now)) out.old out.new result }
{
    let mut rest = s;
    let mut end = 0;
    while !rest.is_empty() {
        let n = usize::from(hex_byte(rest, 1).unwrap());
        if n == 0 {
            return end;
        }
        end = put_data(rest, n, out, end);
        let behind = 2 * n + 11;
        rest = &rest[behind + ending(rest, behind).unwrap()..];
    }
    end
}
