// A character written as an escape: RFC 8259, section 7.
ghost use Rattle.std.specs.Prelude.{◌≡◌, ◌≤◌, ◌+◌, ◌-◌, ◌*◌, length};
ghost use Rattle.spec.specs.Strings.{hex_value, hex_in, second_limit};
ghost use Rattle.spec.specs.Strings.{low_surrogate, after_high, unicode_escape, short_escape};
ghost use Rattle.spec.specs.Strings.{escape};
ghost use Rattle.spec.specs.Fault.{outcome};
ghost use Rattle.lexer.specs.Answers.{character_outcome};

use crate::characters::Character;
use crate::cursor::{Cursor, byte_in, peek};
use spec::refusal::{Fault, Refusal};

// The value of a hexadecimal digit, and 16 for any other byte.
fn hex_value(b: u8) -> u8
    ensures { result ≡ hex_value b }
{
    match b {
        b'0'..=b'9' => b - b'0',
        b'A'..=b'F' => b - b'A' + 10,
        b'a'..=b'f' => b - b'a' + 10,
        _ => 16,
    }
}

// The value of the hexadecimal digit at a place, which must lie between two bounds.
fn hex_in(s: &[u8], at: usize, low: u8, high: u8) -> Result<u8, Fault>
    ensures { outcome result ≡ hex_in s.now at low high }
{
    let h = hex_value(peek(s, at));
    if h < low {
        return Err(Refusal::NotJson.at(at));
    }
    if high < h {
        return Err(Refusal::NotJson.at(at));
    }
    Ok(h)
}

// The number that four hexadecimal digits write.
fn hex_number(a: u8, b: u8, c: u8, d: u8) -> u32
    ensures { result ≡ a * 0x1000 + b * 0x100 + c * 0x10 + d }
{
    (a as u32) * 0x1000 + (b as u32) * 0x100 + (c as u32) * 0x10 + d as u32
}

// The code point of a surrogate pair, from the high surrogate and the last three digits of the low one.
fn pair(high: u32, b: u8, c: u8, d: u8) -> u32
    requires { (0xD800 ≤ high) × (high ≤ 0xDBFF) × (0xC ≤ b) }
    ensures { result ≡ 0x1_0000 + (high - 0xD800) * 0x400 + ((b - 0xC) * 0x100 + c * 0x10 + d) }
{
    0x1_0000 + (high - 0xD800) * 0x400 + ((b - 0xC) as u32 * 0x100 + (c as u32) * 0x10 + d as u32)
}

// The four digits of a low surrogate, given the high one.
fn low_surrogate(s: &[u8], high: u32, at: usize) -> Result<Character, Fault>
    requires { (at ≤ length s.now) × (0xD800 ≤ high) × (high ≤ 0xDBFF) }
    ensures { character_outcome result ≡ low_surrogate s.now high at }
{
    hex_in(s, at, 0xD, 0xD)?;
    let b = hex_in(s, at + 1, 0xC, 0xF)?;
    let c = hex_in(s, at + 2, 0x0, 0xF)?;
    let d = hex_in(s, at + 3, 0x0, 0xF)?;
    Ok(Character {
        code: pair(high, b, c, d),
        next: Cursor { at: at + 4 },
    })
}

// The escape of a low surrogate, which must follow that of the high one.
fn after_high(s: &[u8], high: u32, at: usize) -> Result<Character, Fault>
    requires { (at ≤ length s.now) × (0xD800 ≤ high) × (high ≤ 0xDBFF) }
    ensures { character_outcome result ≡ after_high s.now high at }
{
    byte_in(s, at, b'\\', b'\\')?;
    byte_in(s, at + 1, b'u', b'u')?;
    low_surrogate(s, high, at + 2)
}

// The largest second digit, given the first: no escape begins with a low surrogate.
fn second_limit(a: u8) -> u8
    ensures { result ≡ second_limit a }
{
    if a == 0xD {
        return 0xB;
    }
    0xF
}

// The four digits after \u, with the low surrogate that must follow a high one.
fn unicode_escape(s: &[u8], at: usize) -> Result<Character, Fault>
    requires { at ≤ length s.now }
    ensures { character_outcome result ≡ unicode_escape s.now at }
{
    let a = hex_in(s, at, 0x0, 0xF)?;
    let b = hex_in(s, at + 1, 0x0, second_limit(a))?;
    let c = hex_in(s, at + 2, 0x0, 0xF)?;
    let d = hex_in(s, at + 3, 0x0, 0xF)?;
    let u = hex_number(a, b, c, d);
    let next = at + 4;
    match u {
        0xD800..=0xDBFF => after_high(s, u, next),
        _ => Ok(Character {
            code: u,
            next: Cursor { at: next },
        }),
    }
}

// What a byte after a backslash stands for, and 0 where it is none of the eight.
fn short_escape(b: u8) -> u8
    ensures { result ≡ short_escape b }
{
    match b {
        b'"' => b'"',
        b'\\' => b'\\',
        b'/' => b'/',
        b'b' => 0x08,
        b'f' => 0x0C,
        b'n' => 0x0A,
        b'r' => 0x0D,
        b't' => 0x09,
        _ => 0,
    }
}

// An escape after its backslash.
pub fn escape(s: &[u8], at: usize) -> Result<Character, Fault>
    ensures { character_outcome result ≡ escape s.now at }
{
    let b = peek(s, at);
    if b == b'u' {
        return unicode_escape(s, at + 1);
    }
    let e = short_escape(b);
    if e == 0 {
        return Err(Refusal::NotJson.at(at));
    }
    Ok(Character {
        code: e as u32,
        next: Cursor { at: at + 1 },
    })
}
