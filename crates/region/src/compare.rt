// A region and the paths of operations, compared where they stand.
ghost use Rattle.std.specs.Prelude.{◌≡◌, true, false, [], ◌<◌, length};
ghost use Rattle.spec.specs.Pointer.{tokens};
ghost use Rattle.lexer.specs.Answers.{character_outcome};
ghost use Rattle.lexer.specs.Names.{stands_for_itself};
ghost use Rattle.text.specs.Decode.{decode, decode_from};
ghost use Rattle.pointer.specs.Tokens.{accepted};
ghost use Rattle.pointer.specs.Prefix.{PrefixOf};
ghost use Rattle.fragment.specs.Link.{character_at};
ghost use Rattle.region.specs.Answer.{region_tokens};
ghost use Rattle.region.specs.Begins.{begins, Raw, BeginsRaw, SameByte};

use fragment::verdict_of;
use lexer::{Character, Cursor, peek, stands_for_itself};
use spec::refusal::Fault;
use text::letters::string_letter;

// Whether a text is a region: UTF-8, and a pointer.
pub fn is_region(region: &[u8]) -> bool
    ensures { result ≡ accepted (region_tokens region.now) }
{
    verdict_of(region).is_ok()
}

// The character of a text in UTF-8 at a place.
fn character_at(s: &[u8], at: usize) -> Result<Character, Fault>
    requires { at < length s.now }
    ensures { character_outcome result ≡ character_at s.now at }
{
    let b = peek(s, at);
    if b < 0x80 {
        return Ok(Character {
            code: u32::from(b),
            next: Cursor { at: at + 1 },
        });
    }
    (Cursor { at }).character(s)
}

// Whether a byte of ASCII has to be escaped in a JSON string; for all other bytes the answer is no.
fn is_escaped(b: u8) -> bool
    ensures { result ≡ false → b < 0x80 → stands_for_itself b ≡ true }
{
    b < 0x80 && !stands_for_itself(b)
}

// Whether a region's bytes can stand in a JSON string as they are.
fn is_raw(region: &[u8]) -> bool
    ensures { result ≡ true → Raw region.now }
{
    !region.iter().any(|&b| is_escaped(b))
}

// Whether a region and a part go on with the same byte, which is a character by itself. Where they do not, they may
// still go on with the same character, written in more bytes.
fn same_byte(region: &[u8], i: usize, part: &[u8], j: usize) -> bool
    requires { i < length region.now }
    ensures { result ≡ true → SameByte region.now i part.now j }
{
    j < part.len() && part[j] == region[i] && stands_for_itself(region[i])
}

// Whether a part goes on with a slash at a place.
fn slash_at(part: &[u8], at: usize) -> bool
    ensures { result ≡ begins [] (decode_from part.now at) }
{
    if peek(part, at) == b'/' {
        return true;
    }
    match string_letter(part, at) {
        Ok(c) => c.code == 0x2F,
        Err(_) => false,
    }
}

// Whether a region contains a path, character by character, however each is written.
fn is_inside_spelled(region: &[u8], part: &[u8]) -> bool
    ensures { PrefixOf (region_tokens region.now) (tokens (decode part.now)) result }
{
    let mut i = 0;
    let mut j = 0;
    while i < region.len() {
        if same_byte(region, i, part, j) {
            i += 1;
            j += 1;
            continue;
        }
        let Ok(c) = character_at(region, i) else {
            return false;
        };
        let Ok(d) = string_letter(part, j) else {
            return false;
        };
        if c.code != d.code {
            return false;
        }
        i = c.next.at;
        j = d.next.at;
    }
    slash_at(part, j)
}

// A region, and whether it can stand in a JSON string as it is.
#[derive(Clone, Copy)]
pub struct Region<'a> {
    pub text: &'a [u8],
    raw: bool,
    ghost told: { raw ≡ true → Raw text.now },
}

impl<'a> Region<'a> {
    pub fn new(text: &'a [u8]) -> Region<'a>
        ensures { result.text.now ≡ text.now }
    {
        Region {
            text,
            raw: is_raw(text),
        }
    }

    // Whether a part begins with the bytes of a region that can stand in it as they are. This is one test for each
    // byte, and most paths pass it.
    fn begins_raw(self, part: &[u8]) -> bool
        ensures { result ≡ true → BeginsRaw self.entry.text.now part.now }
    {
        self.raw && part.starts_with(self.text)
    }

    // Whether the tokens of a path begin with those of a region, and there is at least one more. The path is a pointer
    // in a JSON string; `part` is what stands between the quotation marks. Both are compared as texts, and a slash must
    // follow: a token is written in one way only, so nothing need be unescaped.
    pub fn contains(self, part: &[u8]) -> bool
        ensures { PrefixOf (region_tokens self.entry.text.now) (tokens (decode part.now)) result }
    {
        if self.begins_raw(part) {
            return slash_at(part, self.text.len());
        }
        is_inside_spelled(self.text, part)
    }
}
