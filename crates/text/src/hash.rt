// The hash of a text.
ghost use Rattle.std.specs.Prelude.{◌≡◌};
ghost use Rattle.lexer.specs.Hash.{hash};
ghost use Rattle.text.specs.Decode.{text_of};

use crate::letters::{any_letter, plain};
use lexer::mix;

// The hash of what a part says: the same for all parts that say the same text, and below 2 ^ 28.
pub fn hash_text(form: u64, s: &[u8]) -> u32
    ensures { result ≡ hash (text_of form s.now) }
{
    let mut h: u32 = 0;
    let mut at = 0;
    loop {
        let b = plain(form, s, at);
        if b != 0 {
            h = mix(h, b as u32);
            at += 1;
            continue;
        }
        if s.len() <= at {
            return h;
        }
        let Ok(c) = any_letter(form, s, at) else {
            return h;
        };
        h = mix(h, c.code);
        at = c.next.at;
    }
}
