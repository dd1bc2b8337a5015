// A number's exponent as it is written: its letter, its sign and its digits.

ghost use Rattle.std.specs.Prelude.{◌≡◌, ◌+◌, min, nat_abs, position};
ghost use Rattle.spec.specs.Numbers.{is_e};
ghost use Rattle.spec.specs.Limits.{max_exponent};
ghost use Rattle.spec.specs.Worth.{decimal, signed_exponent, exponent};

use super::MAX_EXPONENT;
use super::mantissa::is_e;

// What is written after the letter of the exponent, and nothing if there is none.
pub fn after_letter(t: &[u8]) -> &[u8]
    ensures { signed_exponent result.now ≡ exponent t.now }
{
    match letter(t) {
        Some(at) => &t[at + 1..],
        None => &[],
    }
}

// The place of the exponent's letter.
fn letter(t: &[u8]) -> Option<usize>
    ensures { result ≡ position is_e t.now }
{
    t.iter().position(|b| is_e(*b))
}

// The size of an exponent with its sign, if it has one; 10,000 if it is larger.
pub fn exponent_size(t: &[u8]) -> usize
    ensures { result ≡ min (nat_abs (signed_exponent t.now)) (max_exponent + 1) }
{
    integer(after_sign(t))
}

// What is written after the sign, if there is one.
fn after_sign(t: &[u8]) -> &[u8]
    ensures { decimal 0 result.now ≡ nat_abs (signed_exponent t.now) }
{
    match t.split_first() {
        Some((b, rest)) if *b == b'-' || *b == b'+' => rest,
        _ => t,
    }
}

// The integer that digits write, or 10,000 if it is larger. A byte below the digits counts as 0.
fn integer(t: &[u8]) -> usize
    ensures { result ≡ min (decimal 0 t.now) (max_exponent + 1) }
{
    let mut n = 0;
    for b in t {
        n = n * 10 + usize::from(b.saturating_sub(b'0'));
        if MAX_EXPONENT < n {
            return MAX_EXPONENT + 1;
        }
    }
    n
}
