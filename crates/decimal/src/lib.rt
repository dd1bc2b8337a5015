// Equality of two JSON numbers by their exact value: SPECIFICATION 7.3. The zeros on both ends of the digits are
// dropped, and a signed power of ten is adjusted. A zero of either sign is zero (SPECIFICATION 7.4, T-04).
// Each function reads a number's text where it lies: no digit is copied, and no float is made.
#![tactic(auto)]

mod exponent; // exponent.rt: what is written after the letter e
mod mantissa; // mantissa.rt: the digits before it

ghost use Rattle.std.specs.Prelude.{◌≡◌, ◌≤◌, length, take, drop, ◌&&◌, eqb};
ghost use Rattle.std.specs.Prelude.{ltb, pos, neg_ℤ, nat_abs, ◌+ℤ◌, ◌-ℤ◌, if◌then◌else◌};
ghost use Rattle.spec.specs.Limits.{max_number, max_exponent};
ghost use Rattle.spec.specs.Worth.{mantissa as mantissaOf, exponent as exponentOf, is_negative, worth};
ghost use Rattle.spec.specs.Value.{same_text};
ghost use Rattle.spec.specs.Equality.{same_worth};
ghost use Rattle.decimal.specs.Normal.{normal_form, normalized, same_number};

use exponent::{after_letter, exponent_size};
use mantissa::{digits, first_digit, fraction, is_digit, significant};
use spec::limits;

// The limit on the size of a number's written exponent: `limits::MAX_EXPONENT`, in the type of a count of bytes.
const MAX_EXPONENT: usize = 9_999;

// A number's text in normal form: whether it is below zero; where its significant digits begin, and how many there are,
// without zeros at either end and not counting the point between them; and the power of ten of the last of them. A zero
// has no significant digits, the power 0 and no sign.
#[derive(Clone, Copy)]
pub struct Normal {
    pub negative: bool,
    pub first: usize,
    pub count: usize,
    pub power: i32,
}

// Whether two numbers are equal by their exact value. A text that is over a limit of numbers equals none.
pub fn same_number(a: &[u8], b: &[u8]) -> bool
    ensures { result ≡ same_number a.now b.now }
{
    let Some(x) = normalize(a) else {
        return false;
    };
    let Some(y) = normalize(b) else {
        return false;
    };
    same_normal(a, x, b, y)
}

// A number's text in normal form, if it is no longer than a number may be and its exponent no larger.
pub fn normalize(t: &[u8]) -> Option<Normal>
    ensures { result ≡ normalized t.now }
{
    if limits::MAX_NUMBER < t.len() {
        return None;
    }
    let exponent = after_letter(t);
    let size = exponent_size(exponent);
    if MAX_EXPONENT < size {
        return None;
    }
    Some(normal_form(t, signed(has_minus(exponent), size)))
}

// The same where the text is within the limits and its exponent is given.
fn normal_form(t: &[u8], exponent: i32) -> Normal
    requires { (length t.now ≤ max_number) × ((exponent ≡ exponentOf t.now) × (nat_abs exponent ≤ max_exponent)) }
    ensures { result ≡ normal_form t.now }
{
    let first = first_digit(t);
    let significand = &t[first..];
    let count = significant(significand);
    let dropped = digits(significand) - count;
    Normal {
        negative: below_zero(has_minus(t), count),
        first,
        count,
        power: power(count, exponent, fraction(t), dropped),
    }
}

// Whether a minus stands in front.
fn has_minus(t: &[u8]) -> bool
    ensures { result ≡ is_negative t.now }
{
    t.first() == Some(&b'-')
}

// Whether a number with `count` significant digits is below zero. SPECIFICATION 7.4, T-04: a zero is not, even
// with a minus.
fn below_zero(minus: bool, count: usize) -> bool
    ensures { result ≡ (minus && ltb 0 count) }
{
    minus && 0 < count
}

// The exponent of a sign and a size.
fn signed(negative: bool, size: usize) -> i32
    requires { size ≤ max_exponent }
    ensures { result ≡ (if negative then neg_ℤ (pos size) else pos size) }
{
    if negative {
        return -(size as i32);
    }
    size as i32
}

// The power of ten of the last of `count` significant digits, after which `dropped` zeros stood. The digits after the
// point lower it.
fn power(count: usize, exponent: i32, fraction: usize, dropped: usize) -> i32
    requires { (nat_abs exponent ≤ max_exponent) × ((fraction ≤ max_number) × (dropped ≤ max_number)) }
    ensures { result ≡ (if eqb count 0 then pos 0 else ((exponent -ℤ pos fraction) +ℤ pos dropped)) }
{
    if count == 0 {
        return 0;
    }
    exponent - fraction as i32 + dropped as i32
}

// Whether two texts are equal numbers, by their normal forms.
fn same_normal(a: &[u8], x: Normal, b: &[u8], y: Normal) -> bool
    requires { (x ≡ normal_form a.now) × (y ≡ normal_form b.now) }
    ensures { result ≡ same_worth (worth a.now) (worth b.now) }
{
    if x.negative != y.negative || x.power != y.power || x.count != y.count {
        return false;
    }
    same_digits(a, x.first, b, y.first, x.count)
}

// Whether two texts have the same `count` digits, from a place of each on. Neither text ends before those digits do, so
// no index is tested. `eq` of the two filtered slices would say it in a line; its clauses did not prove it.
fn same_digits(a: &[u8], first: usize, b: &[u8], other: usize, count: usize) -> bool
    requires { (count ≤ length (mantissaOf (drop first a.now)))
        × (count ≤ length (mantissaOf (drop other b.now))) }
    ensures { result ≡ same_text (take count (mantissaOf (drop first a.now)))
        (take count (mantissaOf (drop other b.now))) }
{
    let mut i = first;
    let mut j = other;
    let mut left = count;
    while 0 < left {
        let x = a[i];
        let y = b[j];
        if !is_digit(x) {
            i += 1;
            continue;
        }
        if !is_digit(y) {
            j += 1;
            continue;
        }
        if x != y {
            return false;
        }
        i += 1;
        j += 1;
        left -= 1;
    }
    true
}
