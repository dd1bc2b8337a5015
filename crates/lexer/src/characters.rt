// One character of a string: RFC 8259, section 7.
ghost use Rattle.std.specs.Prelude.{◌≡◌};
ghost use Rattle.spec.specs.Strings.{character};
ghost use Rattle.lexer.specs.Answers.{character_outcome};

use crate::cursor::{Cursor, peek};
use crate::escapes::escape;
use crate::utf8::multibyte;
use spec::refusal::Fault;

// A character's code point, and the cursor after it.
#[derive(Clone, Copy)]
pub struct Character {
    pub code: u32,
    pub next: Cursor,
}

impl Cursor {
    // The character at the cursor. A quotation mark is read as any other character: the caller looks for it first.
    // `CharactersByClass` (specs/ByClass) says what the character is by the class of its first byte.
    pub fn character(self, s: &[u8]) -> Result<Character, Fault>
        ensures { character_outcome result ≡ character s.now self.at }
    {
        let at = self.at;
        let b = peek(s, at);
        match b {
            b'\\' => escape(s, at + 1),
            0x20..=0x7F => Ok(Character {
                code: b as u32,
                next: Cursor { at: at + 1 },
            }),
            _ => multibyte(s, at),
        }
    }
}
