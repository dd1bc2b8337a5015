// Numbers: RFC 8259, section 6, production by production, within the limits. `start` is where the number begins.
ghost use Rattle.std.specs.Prelude.{◌≡◌, ◌≤◌, ◌<◌, length};
ghost use Rattle.spec.specs.Numbers.{is_digit, is_e, counted, digits, some_digits, int, frac, sign, exponent_digits};
ghost use Rattle.spec.specs.Numbers.{signed_digits, exp, minus, number};
ghost use Rattle.lexer.specs.Answers.{scan_outcome};

use crate::cursor::{Cursor, byte_in, peek};
use spec::limits;
use spec::refusal::{Fault, Refusal};

#[tactic(auto, using(crate::proofs::Auto::auto), unfolding(spec::specs::Numbers::is_digit, spec::specs::Bytes::within))]
fn is_digit(b: u8) -> bool
    ensures { result ≡ is_digit b }
{
    b.is_ascii_digit()
}

#[tactic(auto, using(crate::proofs::Auto::auto), unfolding(spec::specs::Numbers::is_e))]
fn is_e(b: u8) -> bool
    ensures { result ≡ is_e b }
{
    matches!(b, b'e' | b'E')
}

// The place after a byte of the number, or 7 where it is byte 129. `start` is below 2^63, so `start + 128` cannot
// overflow.
fn counted(start: usize, at: usize) -> Result<Cursor, Fault>
    requires { start < 0x8000_0000_0000_0000 }
    ensures { scan_outcome result ≡ counted start at }
{
    if at < start + limits::MAX_NUMBER {
        return Ok(Cursor { at: at + 1 });
    }
    Err(Refusal::NumberOverLimit.at(at))
}

// *DIGIT
fn digits(s: &[u8], start: usize, first: usize) -> Result<Cursor, Fault>
    requires { start ≤ length s.now }
    ensures { scan_outcome result ≡ digits (length s.now) s.now start first }
{
    let mut at = first;
    while is_digit(peek(s, at)) {
        let next = counted(start, at)?;
        at = next.at;
    }
    Ok(Cursor { at })
}

// 1*DIGIT
fn some_digits(s: &[u8], start: usize, at: usize) -> Result<Cursor, Fault>
    requires { start ≤ length s.now }
    ensures { scan_outcome result ≡ some_digits s.now start at }
{
    byte_in(s, at, b'0', b'9')?;
    digits(s, start, at)
}

// int = zero / ( digit1-9 *DIGIT )
fn int(s: &[u8], start: usize, at: usize) -> Result<Cursor, Fault>
    requires { start ≤ length s.now }
    ensures { scan_outcome result ≡ int s.now start at }
{
    if peek(s, at) == b'0' {
        return counted(start, at);
    }
    some_digits(s, start, at)
}

// [ frac ], frac = decimal-point 1*DIGIT
fn frac(s: &[u8], start: usize, at: usize) -> Result<Cursor, Fault>
    requires { start ≤ length s.now }
    ensures { scan_outcome result ≡ frac s.now start at }
{
    if peek(s, at) != b'.' {
        return Ok(Cursor { at });
    }
    let next = counted(start, at)?;
    some_digits(s, start, next.at)
}

// [ minus / plus ]
#[tactic(auto, using(crate::proofs::Auto::auto), unfolding(spec::specs::Numbers::sign, spec::specs::Fault::outcome_by))]
fn sign(s: &[u8], start: usize, at: usize) -> Result<Cursor, Fault>
    requires { start ≤ length s.now }
    ensures { scan_outcome result ≡ sign s.now start at }
{
    match peek(s, at) {
        b'+' | b'-' => counted(start, at),
        _ => Ok(Cursor { at }),
    }
}

// *DIGIT of an exponent: 7 at the digit with which it passes its limit.
fn exponent_digits(s: &[u8], start: usize, first: usize) -> Result<Cursor, Fault>
    requires { start ≤ length s.now }
    ensures { scan_outcome result ≡ exponent_digits (length s.now) s.now start 0 first }
{
    let mut at = first;
    let mut size: u32 = 0;
    loop {
        let b = peek(s, at);
        if !is_digit(b) {
            return Ok(Cursor { at });
        }
        size = size * 10 + (b - b'0') as u32;
        if limits::MAX_EXPONENT < size {
            return Err(Refusal::NumberOverLimit.at(at));
        }
        let next = counted(start, at)?;
        at = next.at;
    }
}

// [ minus / plus ] 1*DIGIT
fn signed_digits(s: &[u8], start: usize, at: usize) -> Result<Cursor, Fault>
    requires { start ≤ length s.now }
    ensures { scan_outcome result ≡ signed_digits s.now start at }
{
    let next = sign(s, start, at)?;
    let first = next.at;
    byte_in(s, first, b'0', b'9')?;
    exponent_digits(s, start, first)
}

// [ exp ], exp = e [ minus / plus ] 1*DIGIT
fn exp(s: &[u8], start: usize, at: usize) -> Result<Cursor, Fault>
    requires { start ≤ length s.now }
    ensures { scan_outcome result ≡ exp s.now start at }
{
    if !is_e(peek(s, at)) {
        return Ok(Cursor { at });
    }
    let next = counted(start, at)?;
    signed_digits(s, start, next.at)
}

// [ minus ]
fn minus(s: &[u8], at: usize) -> usize
    requires { at ≤ length s.now }
    ensures { result ≡ minus s.now at }
{
    if peek(s, at) == b'-' {
        return at + 1;
    }
    at
}

impl Cursor {
    // The number at the cursor: number = [ minus ] int [ frac ] [ exp ].
    pub fn number(self, s: &[u8]) -> Result<Cursor, Fault>
        ensures { scan_outcome result ≡ number s.now self.at }
    {
        let start = self.at;
        if s.len() <= start {
            return Err(Refusal::NotJson.at(start));
        }
        let point = int(s, start, minus(s, start))?;
        let letter = frac(s, start, point.at)?;
        exp(s, start, letter.at)
    }
}
