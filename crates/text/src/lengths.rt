// How many bytes a text takes when it is written.
ghost use Rattle.std.specs.Prelude.{◌≡◌, length};
ghost use Rattle.spec.specs.Write.{utf8, write_character, write_characters};
ghost use Rattle.text.specs.Decode.{text_of};
ghost use Rattle.text.specs.Written.{written};

use crate::escapes::short_letter;
use crate::letters::{letter, string_letter};
use crate::runs::run_end;

// The number of bytes of a code point in UTF-8.
fn utf8_length(c: u32) -> usize
    ensures { result ≡ length (utf8 c) }
{
    if c < 0x80 {
        return 1;
    }
    if c < 0x800 {
        return 2;
    }
    if c < 0x1_0000 {
        return 3;
    }
    4
}

// The number of bytes of a character when it is written.
fn character_length(c: u32) -> usize
    ensures { result ≡ length (write_character c) }
{
    if short_letter(c) != 0 {
        return 2;
    }
    if c < 0x20 {
        return 6;
    }
    utf8_length(c)
}

// The number of bytes of a part's text when it is written, character by character.
fn text_length(form: u64, s: &[u8]) -> usize
    ensures { result ≡ length (write_characters (text_of form s.now)) }
{
    let mut total = 0;
    let mut at = 0;
    loop {
        let Ok(c) = letter(form, s, at) else {
            return total;
        };
        total += character_length(c.code);
        at = c.next.at;
    }
}

// The same for a string's text: a run of characters that are written as they are read, then one that may not be, and so
// on.
fn string_length(s: &[u8]) -> usize
    ensures { result ≡ length (write_characters (text_of 2 s.now)) }
{
    let mut total = 0;
    let mut start = 0;
    loop {
        let at = run_end(s, start);
        total += at - start;
        let Ok(c) = string_letter(s, at) else {
            return total;
        };
        total += character_length(c.code);
        start = c.next.at;
    }
}

// The number of bytes of a part when it is written; it is at most the part's own.
pub fn written_length(form: u64, s: &[u8]) -> usize
    ensures { result ≡ length (written form s.now) }
{
    if form == 1 {
        return s.len();
    }
    if form == 2 {
        return string_length(s);
    }
    text_length(form, s)
}
