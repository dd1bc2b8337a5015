// Texts laid down in the output.
ghost use Rattle.std.specs.Prelude.{◌≡◌, ◌+◌, ◌<◌, ◌≤◌, length, set, drop, leb};
ghost use Rattle.text.specs.Written.{Stored, LaidDown};
ghost use Rattle.text.specs.UpperHex.{upper_hex};
ghost use Rattle.fragment.specs.Link.{encoded, link, nothing, octets};
ghost use Rattle.fragment.specs.Scan.{KeptTable, OctetsPut};

use crate::kept::is_kept;
use crate::octets::octet_at;

// A hexadecimal digit in upper case. It stands in crate intel_hex too, as `put` does: see `hex_value` in octets.
#[tactic(auto, unfolding(text::specs::UpperHex::upper_hex))]
fn hex_digit(n: u8) -> u8
    requires { n < 16 }
    ensures { result ≡ upper_hex n }
{
    if n < 10 { b'0' + n } else { b'A' + (n - 10) }
}

// How many bytes an octet takes in a link.
#[tactic(auto, unfolding(crate::specs::Link::encoded))]
fn width(b: u8, kept: &[u8; 256]) -> usize
    requires { KeptTable kept.now }
    ensures { result ≡ length (encoded b) }
{
    if is_kept(b, kept) { 1 } else { 3 }
}

// Whether there is room for the link of a pointer.
pub fn fits(pointer: &[u8], room: usize, kept: &[u8; 256]) -> bool
    requires { KeptTable kept.now }
    ensures { result ≡ leb (length (link pointer.now)) room }
{
    if room == 0 {
        return false;
    }
    let mut left = room - 1;
    for b in pointer {
        let w = width(*b, kept);
        if left < w {
            return false;
        }
        left -= w;
    }
    true
}

// A byte stored at a place, where there is room.
fn put(out: &mut [u8], at: usize, b: u8)
    ensures { out.new ≡ set out.old at b }
{
    if at < out.len() {
        out[at] = b;
    }
}

// An octet as a link has it, from a place on; the answer is the place after it.
fn put_octet(out: &mut [u8], at: usize, b: u8, kept: &[u8; 256]) -> usize
    requires { (at + length (encoded b) < 0x1_0000_0000_0000_0000) × KeptTable kept.now }
    ensures { Stored (encoded b) at out.old out.new result }
{
    if is_kept(b, kept) {
        put(out, at, b);
        return at + 1;
    }
    put(out, at, b'%');
    put(out, at + 1, hex_digit(b / 16));
    put(out, at + 2, hex_digit(b % 16));
    at + 3
}

// The link of a pointer at the front of the output, which has room for it; the answer is its length.
pub fn put_link(pointer: &[u8], out: &mut [u8], kept: &[u8; 256]) -> usize
    requires { (length (link pointer.now) ≤ length out.old) × KeptTable kept.now }
    ensures { LaidDown (link pointer.now) out.old out.new result }
{
    put(out, 0, b'#');
    let mut end = 1;
    for b in pointer {
        end = put_octet(out, end, *b, kept);
    }
    end
}

// The octets of a fragment, which begins at a place of a text, at the front of the output; the answer is their number.
// The loop is a `while` as in `fragment_at`.
pub fn put_octets(s: &[u8], start: usize, out: &mut [u8], kept: &[u8; 256]) -> usize
    requires { (start ≤ length s.now) × KeptTable kept.now }
    ensures { OctetsPut (octets nothing (drop start s.now)) out.old out.new result }
{
    let mut end = 0;
    let mut at = start;
    while at < s.len() {
        let Some((b, next)) = octet_at(s, at, kept) else {
            return end;
        };
        put(out, end, b);
        end += 1;
        at = next;
    }
    end
}
