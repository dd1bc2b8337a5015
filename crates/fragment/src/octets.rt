// The octets of a fragment: kept bytes as they are, and `%` with two hexadecimal digits.
ghost use Rattle.std.specs.Prelude.{◌≡◌, ◌<◌, ◌≤◌, length, drop, SomeIff};
ghost use Rattle.spec.specs.Strings.{hex_value};
ghost use Rattle.fragment.specs.Link.{nothing, octets};
ghost use Rattle.fragment.specs.Scan.{KeptTable, OctetAt, PercentAt, fragment_of};

use crate::kept::is_kept;
use crate::refusal::LinkRefusal;
use crate::scan::{BETWEEN, Syntax, judge};
use lexer::peek;

// The value of a hexadecimal digit of either case. It stands in crate intel_hex too: no crate below both has it
// (docs/DECISIONS.md, "Small functions that stand more than once").
#[tactic(auto, unfolding(spec::specs::Strings::hex_value, spec::specs::Bytes::within))]
fn hex_value(b: u8) -> Option<u8>
    ensures { SomeIff result (hex_value b < 16) (hex_value b) }
{
    match b {
        b'0'..=b'9' => Some(b - b'0'),
        b'A'..=b'F' => Some(b - b'A' + 10),
        b'a'..=b'f' => Some(b - b'a' + 10),
        _ => None,
    }
}

// The octet of the two digits at a place.
fn percent(s: &[u8], at: usize) -> Option<u8>
    requires { at ≤ length s.now }
    ensures { PercentAt s.now at result }
{
    Some(hex_value(peek(s, at))? * 16 + hex_value(peek(s, at + 1))?)
}

// The octet at a place of a fragment, and the place after it; `None` where no fragment has what stands there.
pub fn octet_at(s: &[u8], at: usize, kept: &[u8; 256]) -> Option<(u8, usize)>
    requires { (at < length s.now) × KeptTable kept.now }
    ensures { OctetAt s.now at result }
{
    let b = s[at];
    if b == b'%' {
        return Some((percent(s, at + 1)?, at + 3));
    }
    if is_kept(b, kept) {
        return Some((b, at + 1));
    }
    None
}

// How many octets stand in a text from a place on, where they are a pointer. The loop is a `while`, since an octet
// takes one byte or three: `octet_at` answers the next place.
pub fn fragment_at(s: &[u8], start: usize, kept: &[u8; 256]) -> Result<usize, LinkRefusal>
    requires { (start ≤ length s.now) × KeptTable kept.now }
    ensures { result ≡ fragment_of (octets nothing (drop start s.now)) }
{
    let mut awaited = BETWEEN;
    let mut syntax = Syntax::Start;
    let mut n = 0;
    let mut at = start;
    while at < s.len() {
        let (b, next) = octet_at(s, at, kept).ok_or(LinkRefusal::BadLink)?;
        awaited = awaited.next(b);
        syntax = syntax.next(b);
        n += 1;
        at = next;
    }
    judge(awaited, syntax)?;
    Ok(n)
}
