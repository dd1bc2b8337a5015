// The literals, each after its first byte, by which the caller knows it: RFC 8259, section 3.
ghost use Rattle.std.specs.Prelude.{◌≡◌, ◌≤◌, All};
ghost use Rattle.spec.specs.Bytes.{ascii};
ghost use Rattle.spec.specs.Read.{word_at};
ghost use Rattle.lexer.specs.Answers.{scan_outcome};

use crate::cursor::{Cursor, byte_in};
use spec::refusal::Fault;

// The bytes of a word, one after another. None is 0, so none is found past the end of the text.
fn word(s: &[u8], at: usize, word: &[u8]) -> Result<Cursor, Fault>
    requires { All (λ b. 1 ≤ b) word.now }
    ensures { scan_outcome result ≡ word_at word.now s.now at }
{
    let mut next = at;
    for b in word {
        byte_in(s, next, *b, *b)?;
        next += 1;
    }
    Ok(Cursor { at: next })
}

#[tactic(auto, unfolding(spec::specs::Bytes::ascii))]
impl Cursor {
    // null, after its n
    pub fn null_literal(self, s: &[u8]) -> Result<Cursor, Fault>
        ensures { scan_outcome result ≡ word_at (ascii "ull") s.now self.at }
    {
        word(s, self.at, b"ull")
    }

    // true, after its t
    pub fn true_literal(self, s: &[u8]) -> Result<Cursor, Fault>
        ensures { scan_outcome result ≡ word_at (ascii "rue") s.now self.at }
    {
        word(s, self.at, b"rue")
    }

    // false, after its f
    pub fn false_literal(self, s: &[u8]) -> Result<Cursor, Fault>
        ensures { scan_outcome result ≡ word_at (ascii "alse") s.now self.at }
    {
        word(s, self.at, b"alse")
    }
}
