// One character of what a part says.
ghost use Rattle.std.specs.Prelude.{◌≡◌};
ghost use Rattle.spec.specs.Bytes.{within};
ghost use Rattle.lexer.specs.Answers.{character_outcome};
ghost use Rattle.text.specs.Decode.{character_in};
ghost use Rattle.text.specs.Letters.{after_tilde, token_letter, letter_at, is_letter, plain_at};

use lexer::{Character, Cursor, peek, stands_for_itself};
use spec::refusal::{Fault, Refusal};

// The character of a string at a place of its part; refused where the string ends. A byte that stands for itself is
// tested first, so that `Cursor::character` is called for few bytes.
pub fn string_letter(s: &[u8], at: usize) -> Result<Character, Fault>
    ensures { character_outcome result ≡ character_in s.now at }
{
    let b = peek(s, at);
    if stands_for_itself(b) {
        return Ok(Character {
            code: b as u32,
            next: Cursor { at: at + 1 },
        });
    }
    if b == b'"' {
        return Err(Refusal::NotJson.at(at));
    }
    (Cursor { at }).character(s)
}

// The character that a `~` begins, given the cursor behind it.
fn after_tilde(s: &[u8], next: Cursor) -> Character
    ensures { (result.code, result.next.at) ≡ after_tilde (character_in s.now next.at) next.at }
{
    let Ok(c) = string_letter(s, next.at) else {
        return Character { code: 0x7E, next };
    };
    match c.code {
        0x30 => Character {
            code: 0x7E,
            next: c.next,
        },
        0x31 => Character {
            code: 0x2F,
            next: c.next,
        },
        _ => Character { code: 0x7E, next },
    }
}

// The character of a pointer's token at a place of its part, `~0` and `~1` each read as one.
fn token_letter(s: &[u8], at: usize) -> Result<Character, Fault>
    ensures { character_outcome result ≡ token_letter s.now at }
{
    let c = string_letter(s, at)?;
    if c.code == 0x7E {
        return Ok(after_tilde(s, c.next));
    }
    Ok(c)
}

// Whether a byte is a letter by itself in every form, as most bytes of most texts are.
#[tactic(auto, using(lexer::proofs::Auto::auto), unfolding(crate::specs::Letters::is_letter, lexer::specs::Names::stands_for_itself, spec::specs::Bytes::within))]
pub fn is_letter(b: u8) -> bool
    ensures { result ≡ is_letter b }
{
    matches!(b, 0x20..=b'}') && b != b'"' && b != b'\\'
}

// Whether a form says any text but the empty one.
pub fn is_form(form: u64) -> bool
    ensures { result ≡ within 1 3 form }
{
    matches!(form, 1..=3)
}

// The byte at a place where it is the letter there by itself, and 0 otherwise. Asking this first keeps a loop over
// letters quick.
#[tactic(auto, using(lexer::proofs::Auto::auto), unfolding(crate::specs::Letters::plain_at))]
pub fn plain(form: u64, s: &[u8], at: usize) -> u8
    ensures { result ≡ plain_at form s.now at }
{
    let b = peek(s, at);
    if is_letter(b) && is_form(form) { b } else { 0 }
}

// The character at a place of a part in a form, with the cursor behind it; refused where the text ends.
#[tactic(auto, using(lexer::proofs::Auto::auto), unfolding(crate::specs::Letters::letter_at, spec::specs::Fault::outcome_by, spec::specs::Fault::number_of))]
pub fn any_letter(form: u64, s: &[u8], at: usize) -> Result<Character, Fault>
    ensures { character_outcome result ≡ letter_at form s.now at }
{
    match form {
        1 | 2 => string_letter(s, at),
        3 => token_letter(s, at),
        _ => Err(Refusal::NotJson.at(at)),
    }
}

// The same, with the quickest tests first: a byte that is a letter by itself, and the part's end.
pub fn letter(form: u64, s: &[u8], at: usize) -> Result<Character, Fault>
    ensures { character_outcome result ≡ letter_at form s.now at }
{
    let b = plain(form, s, at);
    if b != 0 {
        return Ok(Character {
            code: b as u32,
            next: Cursor { at: at + 1 },
        });
    }
    if s.len() <= at {
        return Err(Refusal::NotJson.at(at));
    }
    any_letter(form, s, at)
}
