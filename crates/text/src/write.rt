// Texts laid down in the output.
ghost use Rattle.std.specs.Prelude.{◌≡◌, ◌+◌, ◌%◌, ◌<◌, length};
ghost use Rattle.spec.specs.Write.{utf8, write_character, write_characters};
ghost use Rattle.text.specs.Decode.{text_of};
ghost use Rattle.text.specs.Written.{Stored, LaidDown, written, hex_escape};

use crate::escapes::{hex_digit, short_letter};
use crate::letters::{letter, string_letter};
use crate::runs::run_end;

// Bytes from a place on, where there is room; the answer is the place after them.
fn put_bytes(out: &mut [u8], at: usize, s: &[u8]) -> usize
    requires { at + length s.now < 0x1_0000_0000_0000_0000 }
    ensures { Stored s.now at out.old out.new result }
{
    let n = s.len().min(out.len().saturating_sub(at));
    for i in 0..n {
        out[at + i] = s[i];
    }
    at + s.len()
}

// The few bytes of one character, from a place on, where there is room; the answer is the place after them. Each byte
// has a test of its own: of an array, a copy whose length is known only then would be a call of `memcpy`.
fn put_few(out: &mut [u8], at: usize, s: &[u8]) -> usize
    requires { at + length s.now < 0x1_0000_0000_0000_0000 }
    ensures { Stored s.now at out.old out.new result }
{
    for i in 0..s.len() {
        if at + i < out.len() {
            out[at + i] = s[i];
        }
    }
    at + s.len()
}

// A control as \u00 and two hexadecimal digits, from a place on; the answer is the place after it.
fn put_hex(out: &mut [u8], at: usize, c: u32) -> usize
    requires { (at < 0x8000_0000_0000_0000) × (c < 0x20) }
    ensures { Stored (hex_escape c) at out.old out.new result }
{
    let high = hex_digit((c / 16) as u8);
    let low = hex_digit((c % 16) as u8);
    put_few(out, at, &[b'\\', b'u', b'0', b'0', high, low])
}

// A byte of UTF-8 after the first, with the last six bits of a number.
fn continuation(bits: u32) -> u8
    ensures { result ≡ 0x80 + bits % 64 }
{
    (0x80 + bits % 64) as u8
}

// A code point in UTF-8, from a place on; the answer is the place after it.
fn put_utf8(out: &mut [u8], at: usize, c: u32) -> usize
    requires { (at < 0x8000_0000_0000_0000) × (c < 0x11_0000) }
    ensures { Stored (utf8 c) at out.old out.new result }
{
    if c < 0x80 {
        return put_few(out, at, &[c as u8]);
    }
    let last = continuation(c);
    if c < 0x800 {
        return put_few(out, at, &[(0xC0 + c / 64) as u8, last]);
    }
    let middle = continuation(c / 64);
    if c < 0x1_0000 {
        return put_few(out, at, &[(0xE0 + c / 4096) as u8, middle, last]);
    }
    let second = continuation(c / 4096);
    put_few(out, at, &[(0xF0 + c / 262144) as u8, second, middle, last])
}

// A character of a string, from a place on; the answer is the place after it.
fn put_character(out: &mut [u8], at: usize, c: u32) -> usize
    requires { (at < 0x8000_0000_0000_0000) × (c < 0x11_0000) }
    ensures { Stored (write_character c) at out.old out.new result }
{
    let e = short_letter(c);
    if e != 0 {
        return put_few(out, at, &[b'\\', e]);
    }
    if c < 0x20 {
        return put_hex(out, at, c);
    }
    put_utf8(out, at, c)
}

// A part's text at the front of the output, character by character.
fn write_letters(form: u64, s: &[u8], out: &mut [u8]) -> usize
    ensures { LaidDown (write_characters (text_of form s.now))
        out.old out.new result }
{
    let mut put = 0;
    let mut at = 0;
    loop {
        let Ok(c) = letter(form, s, at) else {
            return put;
        };
        put = put_character(out, put, c.code);
        at = c.next.at;
    }
}

// A string's text at the front of the output: a run of characters that are written as they are read, then one that
// may not be, and so on.
fn write_string(s: &[u8], out: &mut [u8]) -> usize
    ensures { LaidDown (write_characters (text_of 2 s.now)) out.old out.new result }
{
    let mut put = 0;
    let mut start = 0;
    loop {
        let at = run_end(s, start);
        put = put_bytes(out, put, &s[start..at]);
        let Ok(c) = string_letter(s, at) else {
            return put;
        };
        put = put_character(out, put, c.code);
        start = c.next.at;
    }
}

// A part written at the front of `out`, which is the rest of the output; the answer is the number of its bytes, as
// `written_length` has it.
pub fn write_text(form: u64, s: &[u8], out: &mut [u8]) -> usize
    ensures { LaidDown (written form s.now) out.old out.new result }
{
    if form == 1 {
        return put_bytes(out, 0, s);
    }
    if form == 2 {
        return write_string(s, out);
    }
    write_letters(form, s, out)
}
