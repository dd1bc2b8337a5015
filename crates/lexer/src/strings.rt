// Strings: RFC 8259, section 7. A name is read like any other string, and what makes two names quick to compare is kept
// on the way.
ghost use Rattle.std.specs.Prelude.{◌≡◌, ◌+◌, false, ◌&&◌, not, length, eqb};
ghost use Rattle.spec.specs.Strings.{characters, string};
ghost use Rattle.lexer.specs.Names.{stands_for_itself, plain_of, kept_of};
ghost use Rattle.lexer.specs.Verbatim.{Verbatim};
ghost use Rattle.lexer.specs.Answers.{quoted_outcome, name_outcome};

use crate::cursor::{Cursor, byte_in, peek};
use crate::hash::mix;
use crate::verbatim::verbatim_end;
use spec::refusal::Fault;

// The cursor after a name, the hash of its characters, and whether it is plain: written with no escape.
#[derive(Clone, Copy)]
pub struct Name {
    pub next: Cursor,
    pub hash: u32,
    pub plain: bool,
}

// The cursor after a string, and whether it is plain.
#[derive(Clone, Copy)]
pub struct Quoted {
    pub next: Cursor,
    pub plain: bool,
}

// Whether a byte is a whole character of its string, as most bytes of most strings are. Asking this first keeps a loop
// over them quick. These are the bytes of the class of other ASCII (`ItselfByClass`, specs/ByClass). They are found by
// their bounds, since the table of classes would be laid out on the stack for each of them. Each test has the same
// outcome for all of these bytes, so a processor predicts it in every text.
#[tactic(auto, using(crate::proofs::Auto::auto), unfolding(crate::specs::Names::stands_for_itself, spec::specs::Bytes::within))]
pub fn stands_for_itself(b: u8) -> bool
    ensures { result ≡ stands_for_itself b }
{
    matches!(b, 0x20..=0x7F) && b != b'"' && b != b'\\'
}

// Whether a text is still plain after a character that begins with a byte.
fn still_plain(plain: bool, b: u8) -> bool
    ensures { result ≡ (plain && not (eqb b 0x5C)) }
{
    plain && b != b'\\'
}

// The characters from a place to the closing quotation mark, by tables; those before `first` are known to be written
// with no escape. Once the string is not plain, an escape that is written as it is read is passed with the others.
fn mixed_characters(s: &[u8], start: usize, first: usize) -> Result<Quoted, Fault>
    requires { Verbatim false s.now start first }
    ensures { quoted_outcome result
        ≡ plain_of s.now start (characters (length s.now) s.now start) }
{
    let mut at = first;
    let mut plain = true;
    loop {
        at = verbatim_end(s, at, !plain);
        if peek(s, at) == b'"' {
            return Ok(Quoted {
                next: Cursor { at: at + 1 },
                plain,
            });
        }
        let read = (Cursor { at }).character(s)?;
        plain = false; // what can be read here begins with a backslash
        at = read.next.at;
    }
}

// The characters from a place to the closing quotation mark. Most strings have only bytes that stand for themselves,
// and need no tables.
fn characters(s: &[u8], start: usize) -> Result<Quoted, Fault>
    ensures { quoted_outcome result
        ≡ plain_of s.now start (characters (length s.now) s.now start) }
{
    let mut at = start;
    // no `position` in the rest: the start may lie behind the text's end
    while stands_for_itself(peek(s, at)) {
        at += 1;
    }
    if peek(s, at) == b'"' {
        return Ok(Quoted {
            next: Cursor { at: at + 1 },
            plain: true,
        });
    }
    mixed_characters(s, start, at)
}

// The characters from a place to the closing quotation mark, with what is kept of them.
fn name_characters(s: &[u8], start: usize) -> Result<Name, Fault>
    ensures { name_outcome result ≡ kept_of s.now start
        (characters (length s.now) s.now start) }
{
    let mut at = start;
    let mut hash: u32 = 0;
    let mut plain = true;
    loop {
        let b = peek(s, at);
        if stands_for_itself(b) {
            hash = mix(hash, b as u32);
            at += 1;
            continue;
        }
        if b == b'"' {
            return Ok(Name {
                next: Cursor { at: at + 1 },
                hash,
                plain,
            });
        }
        let read = (Cursor { at }).character(s)?;
        hash = mix(hash, read.code);
        plain = still_plain(plain, b);
        at = read.next.at;
    }
}

impl Cursor {
    // The string at the cursor, with its quotation marks, and whether it is plain.
    pub fn quoted(self, s: &[u8]) -> Result<Quoted, Fault>
        ensures { quoted_outcome result
            ≡ plain_of s.now (self.at + 1) (string s.now self.at) }
    {
        let at = self.at;
        byte_in(s, at, b'"', b'"')?;
        characters(s, at + 1)
    }

    // The string at the cursor, with its quotation marks, and what is kept of it as a name.
    pub fn name(self, s: &[u8]) -> Result<Name, Fault>
        ensures { name_outcome result ≡ kept_of s.now (self.at + 1) (string s.now self.at) }
    {
        let at = self.at;
        byte_in(s, at, b'"', b'"')?;
        name_characters(s, at + 1)
    }
}
