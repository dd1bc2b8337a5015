// Blanks, which RFC 8259, section 2, calls whitespace.
ghost use Rattle.std.specs.Prelude.{◌≡◌};
ghost use Rattle.spec.specs.Read.{is_blank, blanks};

use crate::cursor::{Cursor, peek};

#[tactic(auto, using(crate::proofs::Auto::auto), unfolding(spec::specs::Read::is_blank))]
fn is_blank(b: u8) -> bool
    ensures { result ≡ is_blank b }
{
    matches!(b, b' ' | b'\t' | b'\n' | b'\r')
}

impl Cursor {
    // The cursor after the blanks.
    pub fn blanks(self, s: &[u8]) -> Cursor
        ensures { result.at ≡ blanks s.now self.at }
    {
        let mut at = self.at;
        // no `take_while` over the rest: a cursor may stand behind the text's end, and stays there
        while is_blank(peek(s, at)) {
            at += 1;
        }
        Cursor { at }
    }
}
