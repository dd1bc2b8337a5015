// A character of two to four bytes: RFC 3629, section 4, and table 3-7 of the Unicode standard.
ghost use Rattle.std.specs.Prelude.{◌≡◌, ◌≤◌, ◌<◌};
ghost use Rattle.spec.specs.Bytes.{byte};
ghost use Rattle.spec.specs.Strings.{tail, multibyte};
ghost use Rattle.lexer.specs.Answers.{character_outcome};

use crate::characters::Character;
use crate::cursor::{Cursor, byte_in, peek};
use spec::refusal::{Fault, Refusal};

// The last byte of a character, given the bits of those before.
fn last(s: &[u8], at: usize, bits: u32) -> Result<Character, Fault>
    requires { bits < 0x1_0000 }
    ensures { character_outcome result ≡ tail 1 s.now at 0x80 0xBF bits }
{
    let b = byte_in(s, at, 0x80, 0xBF)?;
    Ok(Character {
        code: bits * 64 + (b - 0x80) as u32,
        next: Cursor { at: at + 1 },
    })
}

// The last two, the first of them between two bounds.
fn last_two(s: &[u8], at: usize, low: u8, high: u8, bits: u32) -> Result<Character, Fault>
    requires { (0x80 ≤ low) × (bits < 0x200) }
    ensures { character_outcome result ≡ tail 2 s.now at low high bits }
{
    let b = byte_in(s, at, low, high)?;
    last(s, at + 1, bits * 64 + (b - 0x80) as u32)
}

// The last three, the first of them between two bounds.
fn last_three(s: &[u8], at: usize, low: u8, high: u8, bits: u32) -> Result<Character, Fault>
    requires { (0x80 ≤ low) × (bits < 5) }
    ensures { character_outcome result ≡ tail 3 s.now at low high bits }
{
    let b = byte_in(s, at, low, high)?;
    last_two(s, at + 1, 0x80, 0xBF, bits * 64 + (b - 0x80) as u32)
}

// A character of two to four bytes, row by row of the table.
pub fn multibyte(s: &[u8], at: usize) -> Result<Character, Fault>
    ensures { character_outcome result ≡ multibyte s.now at (byte s.now at) }
{
    let b = peek(s, at);
    if b < 0xC2 {
        return Err(Refusal::NotJson.at(at));
    }
    let next = at + 1;
    match b {
        0xC2..=0xDF => last(s, next, (b - 0xC0) as u32),
        0xE0 => last_two(s, next, 0xA0, 0xBF, (b - 0xE0) as u32),
        0xE1..=0xEC => last_two(s, next, 0x80, 0xBF, (b - 0xE0) as u32),
        0xED => last_two(s, next, 0x80, 0x9F, (b - 0xE0) as u32),
        0xEE..=0xEF => last_two(s, next, 0x80, 0xBF, (b - 0xE0) as u32),
        0xF0 => last_three(s, next, 0x90, 0xBF, (b - 0xF0) as u32),
        0xF1..=0xF3 => last_three(s, next, 0x80, 0xBF, (b - 0xF0) as u32),
        0xF4 => last_three(s, next, 0x80, 0x8F, (b - 0xF0) as u32),
        _ => Err(Refusal::NotJson.at(at)),
    }
}
