// Octets looked at one after another. Only two things are kept of them: what is to come of a character, and how far a
// pointer has been read. So a pointer can be judged octet by octet as it stands in a link.
ghost use Rattle.std.specs.Prelude.{◌≡◌};
ghost use Rattle.fragment.specs.Scan.{first_byte, next_byte, next_syntax, judge, verdict};

// What is to come of a character in UTF-8: how many bytes, and the bounds of the next one.
#[derive(Clone, Copy, Debug, PartialEq, Eq)]
pub struct Awaited {
    pub more: u8,
    pub low: u8,
    pub high: u8,
}

// Between characters.
pub const BETWEEN: Awaited = Awaited {
    more: 0,
    low: 0x80,
    high: 0xBF,
};

// After a byte that no character has there: the bounds admit no byte.
const BROKEN: Awaited = Awaited {
    more: 1,
    low: 1,
    high: 0,
};

impl Awaited {
    // After the first byte of a character: table 3-7 of the Unicode standard. ASCII is tested first, since most texts
    // have little else.
    #[tactic(auto, unfolding(crate::specs::Scan::first_byte, crate::specs::Scan::lowest, crate::specs::Scan::highest))]
    fn first(b: u8) -> Awaited
        ensures { result ≡ first_byte b }
    {
        if b < 0x80 {
            return BETWEEN;
        }
        let (more, low, high) = match b {
            0xC2..=0xDF => (1, 0x80, 0xBF),
            0xE0 => (2, 0xA0, 0xBF),
            0xED => (2, 0x80, 0x9F),
            0xE1..=0xEF => (2, 0x80, 0xBF),
            0xF0 => (3, 0x90, 0xBF),
            0xF1..=0xF3 => (3, 0x80, 0xBF),
            0xF4 => (3, 0x80, 0x8F),
            _ => return BROKEN,
        };
        Awaited { more, low, high }
    }

    // After any byte.
    #[tactic(auto, unfolding(crate::specs::Scan::next_byte, spec::specs::Bytes::within))]
    pub fn next(self, b: u8) -> Awaited
        ensures { result ≡ next_byte self b }
    {
        if self.more == 0 {
            return Awaited::first(b);
        }
        if !(self.low..=self.high).contains(&b) {
            return BROKEN;
        }
        Awaited {
            more: self.more - 1,
            ..BETWEEN
        }
    }
}

// How far a pointer has been read: nothing yet; a token, or its beginning; a `~`; what no pointer begins with.
#[derive(Clone, Copy, Debug, PartialEq, Eq)]
pub enum Syntax {
    Start,
    Token,
    Tilde,
    Malformed,
}

impl Syntax {
    // After one more byte. The usual case is tested first: a token goes on with any byte but `~`.
    #[tactic(auto, unfolding(crate::specs::Scan::next_syntax))]
    pub fn next(self, b: u8) -> Syntax
        ensures { result ≡ next_syntax self b }
    {
        if matches!(self, Syntax::Token) && b != b'~' {
            return Syntax::Token;
        }
        match (self, b) {
            (Syntax::Start, b'/') => Syntax::Token,
            (Syntax::Token, _) => Syntax::Tilde, // only `~` is left
            (Syntax::Tilde, b'0' | b'1') => Syntax::Token,
            _ => Syntax::Malformed,
        }
    }
}

// Why bytes are no pointer.
#[derive(Clone, Copy, Debug, PartialEq, Eq)]
pub enum NotPointer {
    NotUtf8,
    Malformed,
}

// At the end of the bytes.
#[tactic(auto, unfolding(crate::specs::Scan::judge, crate::specs::Scan::may_end))]
pub fn judge(awaited: Awaited, syntax: Syntax) -> Result<(), NotPointer>
    ensures { result ≡ judge awaited syntax }
{
    if awaited.more != 0 {
        return Err(NotPointer::NotUtf8);
    }
    match syntax {
        Syntax::Start | Syntax::Token => Ok(()),
        Syntax::Tilde | Syntax::Malformed => Err(NotPointer::Malformed),
    }
}

// Whether the bytes of a text are a pointer.
pub fn verdict_of(s: &[u8]) -> Result<(), NotPointer>
    ensures { result ≡ verdict s.now }
{
    let mut awaited = BETWEEN;
    let mut syntax = Syntax::Start;
    for b in s {
        awaited = awaited.next(*b);
        syntax = syntax.next(*b);
    }
    judge(awaited, syntax)
}
