// A place in a text, and what reading there answers.
ghost use Rattle.std.specs.Prelude.{◌≡◌};
ghost use Rattle.spec.specs.Bytes.{byte, byte_in};
ghost use Rattle.spec.specs.Fault.{outcome};
ghost use Rattle.lexer.specs.Answers.{ReadIs};

use spec::refusal::{Fault, Refusal};

// A place in a text, which may lie past its end.
#[derive(Clone, Copy, Debug, PartialEq, Eq)]
pub struct Cursor {
    pub at: usize,
}

// The byte at a place, and 0 past the end.
pub fn peek(s: &[u8], at: usize) -> u8
    ensures { result ≡ byte s.now at }
{
    if at < s.len() { s[at] } else { 0 }
}

// A byte that was read, and the cursor after it.
#[derive(Clone, Copy)]
pub struct ByteRead {
    pub byte: u8,
    pub next: Cursor,
}

impl Cursor {
    // The byte here, with the cursor after it. Past the end of the text the byte is 0, and the cursor stays.
    pub fn read(self, s: &[u8]) -> ByteRead
        ensures { ReadIs s.now self.at result }
    {
        let at = self.at;
        if s.len() <= at {
            return ByteRead {
                byte: 0,
                next: self,
            };
        }
        ByteRead {
            byte: s[at],
            next: Cursor { at: at + 1 },
        }
    }
}

// The byte at a place, which must lie between two bounds.
pub fn byte_in(s: &[u8], at: usize, low: u8, high: u8) -> Result<u8, Fault>
    ensures { outcome result ≡ byte_in s.now at low high }
{
    let b = peek(s, at);
    if b < low {
        return Err(Refusal::NotJson.at(at));
    }
    if high < b {
        return Err(Refusal::NotJson.at(at));
    }
    Ok(b)
}
