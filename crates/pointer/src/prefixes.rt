// Whether a pointer's tokens begin another's. Tokens are compared by what they say, never by how they are written:
// `/a` does not begin `/ab`.
ghost use Rattle.std.specs.Prelude.{◌≡◌};
ghost use Rattle.spec.specs.Value.{same_text};
ghost use Rattle.spec.specs.Pointer.{tokens};
ghost use Rattle.text.specs.Decode.{decode, text_of};
ghost use Rattle.pointer.specs.Tokens.{tokens_from, token_bytes};
ghost use Rattle.pointer.specs.Prefix.{is_next, is_at, PrefixOf};

use crate::answers::{First, Token};
use crate::tokens::{first, token, token_part};
use text::same_text;

// Whether two tokens, each with the place where it begins, say the same.
fn same_token(a: &[u8], i: usize, s: Token, b: &[u8], j: usize, t: Token) -> bool
    ensures { result ≡ same_text (text_of 3 (token_bytes a.now i s))
        (text_of 3 (token_bytes b.now j t)) }
{
    same_text(3, token_part(a, i, s), 3, token_part(b, j, t))
}

// Whether another token follows.
#[tactic(auto, unfolding(crate::specs::Prefix::is_next))]
fn is_next(t: Token) -> bool
    ensures { result ≡ is_next t }
{
    matches!(t, Token::Next { .. })
}

// Whether there are tokens.
#[tactic(auto, unfolding(crate::specs::Prefix::is_at))]
fn is_at(f: First) -> bool
    ensures { result ≡ is_at f }
{
    matches!(f, First::At(_))
}

// Whether the tokens from a place on are a proper prefix of another pointer's from a place on.
fn prefix_from(a: &[u8], start: usize, b: &[u8], other: usize) -> bool
    ensures { PrefixOf (tokens_from a.now start) (tokens_from b.now other) result }
{
    let mut i = start;
    let mut j = other;
    loop {
        let s = token(a, i);
        let t = token(b, j);
        if !same_token(a, i, s, b, j, t) {
            return false;
        }
        let Token::Next { end: _, next } = s else {
            return is_next(t);
        };
        let Token::Next {
            end: _,
            next: after,
        } = t
        else {
            return false;
        };
        i = next;
        j = after;
    }
}

// Whether the tokens of a pointer are a proper prefix of another's: the first of them, and not all.
pub fn proper_prefix(a: &[u8], b: &[u8]) -> bool
    ensures { PrefixOf (tokens (decode a.now)) (tokens (decode b.now)) result }
{
    match first(a) {
        First::Root => is_at(first(b)),
        First::At(i) => match first(b) {
            First::Root => false,
            First::At(j) => prefix_from(a, i, b, j),
            First::Malformed => false,
        },
        First::Malformed => false,
    }
}
