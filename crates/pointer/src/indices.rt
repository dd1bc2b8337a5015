// A token as an index.
ghost use Rattle.std.specs.Prelude.{◌≡◌, ◌+◌, ◌-◌, ◌*◌, ◌≤◌};
ghost use Rattle.text.specs.Decode.{text_from, text_of};
ghost use Rattle.pointer.specs.Index.{index_at, index_of, digits_after, capped, if_last};

use crate::answers::Index;
use text::letter;

// An index below this limit is given by its number. No array has that many elements.
pub const INDEX_LIMIT: usize = 65_536;

#[tactic(auto, using(lexer::proofs::Auto::auto), unfolding(crate::specs::Index::index_at))]
fn index_at(n: usize) -> Index
    ensures { result ≡ index_at n }
{
    if n < INDEX_LIMIT {
        return Index::At(n);
    }
    Index::Beyond
}

// A number with one more digit, or the limit where that is not below it, so that no index wraps, however long.
#[tactic(auto, using(lexer::proofs::Auto::auto), unfolding(crate::specs::Index::capped))]
fn with_digit(n: usize, c: u32) -> usize
    requires { (n ≤ 65_536) × (0x30 ≤ c) × (c ≤ 0x39) }
    ensures { result ≡ capped (n * 10 + (c - 0x30)) }
{
    (n * 10 + (c - 0x30) as usize).min(INDEX_LIMIT)
}

// Digits from a place to the end of the token, behind those that write `n`.
fn digits(part: &[u8], start: usize, n: usize) -> Index
    requires { n ≤ 65_536 }
    ensures { result ≡ digits_after n (text_from 3 part.now start) }
{
    let mut at = start;
    let mut value = n;
    loop {
        let Ok(c) = letter(3, part, at) else {
            return index_at(value);
        };
        if c.code < 0x30 {
            return Index::Not;
        }
        if 0x39 < c.code {
            return Index::Not;
        }
        value = with_digit(value, c.code);
        at = c.next.at;
    }
}

// This answer if the token ends at a place; otherwise it is no index.
fn if_last(part: &[u8], at: usize, answer: Index) -> Index
    ensures { result ≡ if_last (text_from 3 part.now at) answer }
{
    let Err(_) = letter(3, part, at) else {
        return Index::Not;
    };
    answer
}

// What a token, given by its part, is to an array.
pub fn index(part: &[u8]) -> Index
    ensures { result ≡ index_of (text_of 3 part.now) }
{
    let Ok(c) = letter(3, part, 0) else {
        return Index::Not;
    };
    if c.code == 0x2D {
        return if_last(part, c.next.at, Index::Dash);
    }
    if c.code == 0x30 {
        return if_last(part, c.next.at, Index::At(0));
    }
    if c.code < 0x30 {
        return Index::Not;
    }
    if 0x39 < c.code {
        return Index::Not;
    }
    digits(part, c.next.at, (c.code - 0x30) as usize)
}
