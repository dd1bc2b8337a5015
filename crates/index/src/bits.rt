// The bits of a name, one after another: those of its hash; then those of another hash of all its characters, of those
// from the second on, and so on; and ones behind the last character.
ghost use Rattle.std.specs.Prelude.{◌≡◌};
ghost use Rattle.tape.specs.Lent.{lent};
ghost use Rattle.index.specs.Bits.{other_mix, other_hash, hash_bits, refill, stream_of};
ghost use Rattle.text.specs.Decode.{text_from};

use crate::slots::ROOM;
use table::spellings::part;
use tape::fields::{Name, long, wide};
use tape::layout::Texts;
use text::letter;

// The bits that are left of a hash, with a 1 above them that marks their end, and the place of the next character.
#[derive(Clone, Copy)]
pub struct Bits {
    pub left: u32,
    pub next: usize,
}

// How many values the other hash has: 28 bits.
const OTHER_HASHES: u32 = 0x1000_0000;

// The factor of the other hash, and the distance by which its upper bits reach the lower ones.
const FACTOR: u64 = 165_904_091;

const DISTANCE: u64 = 0x4000;

// The other hash of a text and one more character. It is meant to separate names whose first hashes collide.
fn other_mix(hash: u32, c: u32) -> u32
    ensures { result ≡ other_mix hash c }
{
    let values = u64::from(OTHER_HASHES);
    let m = (u64::from(hash) + u64::from(c)) * FACTOR % values;
    ((m + m / DISTANCE) % values) as u32
}

// The other hash of what a part says from a place on.
fn other_hash(form: u64, s: &[u8], start: usize) -> u32
    ensures { result ≡ other_hash (text_from form s.now start) }
{
    let mut h: u32 = 0;
    let mut at = start;
    while let Ok(c) = letter(form, s, at) {
        h = other_mix(h, c.code);
        at = c.next.at;
    }
    h
}

// How many values the upper bits of a name's hash have.
const UPPER_HASHES: usize = 0x20;

// The bits of a hash that do not choose the first slot, with a 1 above them that marks their end.
pub fn hash_bits(hash: u16) -> u32
    ensures { result ≡ hash_bits hash }
{
    (UPPER_HASHES + wide(hash) / ROOM % UPPER_HASHES) as u32
}

// At least one bit is left: where there was none, the other hash of the characters from the next on gives more.
pub fn refilled<'a>(texts: Texts<'a>, name: Name, bits: Bits) -> Bits
    ensures { stream_of (lent texts) name result ≡ refill (stream_of (lent texts) name bits) }
{
    if 1 < bits.left {
        return bits;
    }
    let s = part(texts, name.text);
    let f = long(name.text.form);
    let Ok(c) = letter(f, s, bits.next) else {
        return Bits {
            left: 1,
            next: bits.next,
        };
    };
    Bits {
        left: OTHER_HASHES + other_hash(f, s, bits.next) % OTHER_HASHES,
        next: c.next.at,
    }
}
