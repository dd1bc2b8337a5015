// A pointer from token to token.
ghost use Rattle.std.specs.Prelude.{◌≡◌};
ghost use Rattle.spec.specs.Pointer.{tokens};
ghost use Rattle.text.specs.Decode.{character_in, decode};
ghost use Rattle.lexer.specs.Names.{part};
ghost use Rattle.lexer.specs.Answers.{character_outcome};
ghost use Rattle.pointer.specs.Tokens.{accepted, tokens_from, continues, FirstOf, TokenAt, token_bytes};

use crate::answers::{First, Token};
use lexer::{Character, peek};
use spec::refusal::Fault;
use text::letter;

// The character of a part at a place: the pointer's own, with `~0` and `~1` not yet unescaped.
fn character_in(part: &[u8], at: usize) -> Result<Character, Fault>
    ensures { character_outcome result ≡ character_in part.now at }
{
    letter(2, part, at)
}

// Where the tokens of a pointer begin.
pub fn first(part: &[u8]) -> First
    ensures { FirstOf part.now result }
{
    let Ok(c) = character_in(part, 0) else {
        return First::Root;
    };
    if c.code == 0x2F {
        return First::At(c.next.at);
    }
    First::Malformed
}

// Whether a byte is a whole character, and no slash, as most bytes of most tokens are. Asked first, it keeps the loop
// below quick.
#[tactic(auto, using(lexer::proofs::Auto::auto), unfolding(crate::specs::Tokens::continues, spec::specs::Bytes::within))]
fn continues(b: u8) -> bool
    ensures { result ≡ continues b }
{
    matches!(b, 0x30..=0x7F) && b != b'\\'
}

// The token that begins at a place. It ends at the next slash, however that is written: `\u002f` is one too.
pub fn token(part: &[u8], start: usize) -> Token
    ensures { TokenAt part.now start result }
{
    let mut at = start;
    loop {
        let b = peek(part, at);
        if continues(b) {
            at += 1;
            continue;
        }
        let Ok(c) = character_in(part, at) else {
            return Token::Last { end: at };
        };
        if c.code == 0x2F {
            return Token::Next {
                end: at,
                next: c.next.at,
            };
        }
        at = c.next.at;
    }
}

// The bytes of a text from one place to another, as far as it has them.
fn between(s: &[u8], from: usize, to: usize) -> &[u8]
    ensures { result.now ≡ part s.now from to }
{
    if to <= from {
        return &s[..0];
    }
    if s.len() <= from {
        return &s[..0];
    }
    if s.len() < to {
        return &s[from..];
    }
    &s[from..to]
}

// The part of a token that begins at a place.
pub fn token_part(part: &[u8], at: usize, t: Token) -> &[u8]
    ensures { result.now ≡ token_bytes part.now at t }
{
    match t {
        Token::Last { end } => between(part, at, end),
        Token::Next { end, .. } => between(part, at, end),
    }
}

// Whether the tokens from a place on are well formed: each `~` stands before a `0` or a `1`.
fn well_formed(part: &[u8], start: usize) -> bool
    ensures { result ≡ accepted (tokens_from part.now start) }
{
    let mut at = start;
    loop {
        let Ok(c) = character_in(part, at) else {
            return true;
        };
        if c.code != 0x7E {
            at = c.next.at;
            continue;
        }
        let Ok(d) = character_in(part, c.next.at) else {
            return false;
        };
        if d.code == 0x30 {
            at = d.next.at;
            continue;
        }
        if d.code != 0x31 {
            return false;
        }
        at = d.next.at;
    }
}

// Whether a part says a pointer.
pub fn is_pointer(part: &[u8]) -> bool
    ensures { result ≡ accepted (tokens (decode part.now)) }
{
    match first(part) {
        First::Root => true,
        First::At(at) => well_formed(part, at),
        First::Malformed => false,
    }
}
