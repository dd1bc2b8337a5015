// Records laid down in the output.
ghost use Rattle.std.specs.Prelude.{◌≡◌, ◌+◌, ◌*◌, ◌%◌, ◌<◌, ◌≤◌, length, slice_set};
ghost use Rattle.text.specs.Written.{Stored, LaidDown};
ghost use Rattle.intel_hex.specs.Record.{total, digits, digits_of, hex_of, max_text};
ghost use Rattle.intel_hex.specs.Steps.{Fits, LineStored};

use crate::digits::hex_digit;

// The most bytes of data in a record that is written.
const RECORD_BYTES: usize = 16;

// The sum of bytes, and of what came before them, modulo 256.
fn sum(bytes: &[u8], start: u8) -> u8
    ensures { result ≡ (start + total bytes.now) % 256 }
{
    let mut sum = start;
    for b in bytes {
        sum = sum.wrapping_add(*b);
    }
    sum
}

// A byte stored at a place, where there is room.
pub fn put(out: &mut [u8], at: usize, b: u8)
    ensures { out.new ≡ slice_set out.old at b }
{
    if at < out.len() {
        out[at] = b;
    }
}

// A byte's digits from a place on, where there is room for them; the answer is the place after them.
fn put_digits(out: &mut [u8], at: usize, b: u8) -> usize
    requires { at + 2 ≤ length out.old }
    ensures { Stored (digits b) at out.old out.new result }
{
    out[at] = hex_digit(b / 16);
    out[at + 1] = hex_digit(b % 16);
    at + 2
}

// The digits of bytes.
fn put_spelled(bytes: &[u8], out: &mut [u8], at: usize) -> usize
    requires { at + 2 * length bytes.now ≤ length out.old }
    ensures { Stored (digits_of bytes.now) at out.old out.new result }
{
    let mut end = at;
    for b in bytes {
        end = put_digits(out, end, *b);
    }
    end
}

// The line of a record.
fn put_line(kind: u8, address: usize, bytes: &[u8], out: &mut [u8], at: usize) -> usize
    requires { Fits address (length bytes.now) at (length out.old) }
    ensures { LineStored kind address bytes.now at out.old out.new result }
{
    let head = [
        bytes.len() as u8,
        (address / 256) as u8,
        (address % 256) as u8,
        kind,
    ];
    let last = sum(bytes, sum(&head, 0)).wrapping_neg();
    put(out, at, b':');
    let behind_head = put_spelled(&head, out, at + 1);
    let behind_data = put_spelled(bytes, out, behind_head);
    let end = put_digits(out, behind_data, last);
    put(out, end, b'\n');
    end + 1
}

// How many bytes a text takes as records.
pub fn hex_length(text: &[u8]) -> usize
    requires { length text.now ≤ max_text }
    ensures { result ≡ length (hex_of text.now) }
{
    let n = text.len();
    n.div_ceil(RECORD_BYTES) * 12 + 2 * n + 12
}

// A text as records at the front of the output, which has room for them; the answer is their length.
pub fn put_hex(text: &[u8], out: &mut [u8]) -> usize
    requires { (length text.now ≤ max_text) × (length (hex_of text.now) ≤ length out.old) }
    ensures { LaidDown (hex_of text.now) out.old out.new result }
{
    let n = text.len();
    let mut end = 0;
    for at in (0..n).step_by(RECORD_BYTES) {
        let stop = (at + RECORD_BYTES).min(n);
        end = put_line(0, at, &text[at..stop], out, end);
    }
    put_line(1, 0, &text[n..], out, end)
}
