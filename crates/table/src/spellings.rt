// Spellings: where a text stands.
ghost use Rattle.std.specs.Prelude.{◌≡◌};
ghost use Rattle.spec.specs.Value.{same_text};
ghost use Rattle.tape.specs.Lent.{lent};
ghost use Rattle.table.specs.Meaning.{source_text, part_of, spelled};

use tape::fields::{Spelling, long, wide};
use tape::layout::{IN_DOCUMENT, Texts};
use text::{same_ascii, same_text};

// The text that a source names.
fn text_of<'a>(texts: Texts<'a>, source: u16) -> &'a [u8]
    ensures { result.now ≡ source_text (lent texts) source }
{
    if source == IN_DOCUMENT {
        texts[0]
    } else {
        texts[1]
    }
}

// The bytes that a spelling names, in the document or in the patch.
pub fn part<'a>(texts: Texts<'a>, spelling: Spelling) -> &'a [u8]
    ensures { result.now ≡ part_of (lent texts) spelling }
{
    let s = text_of(texts, spelling.source);
    let first = wide(spelling.start).min(s.len());
    let end = (first + wide(spelling.length)).min(s.len());
    &s[first..end]
}

// Whether two spellings say the same text.
pub fn same_spelling<'a>(texts: Texts<'a>, a: Spelling, b: Spelling) -> bool
    ensures { result ≡ same_text (spelled (lent texts) a) (spelled (lent texts) b) }
{
    let s = part(texts, a);
    let t = part(texts, b);
    same_text(long(a.form), s, long(b.form), t)
}

// Whether a spelling says the text that is given by its bytes, each of which is a character. It says no more
// characters than it has bytes.
pub fn spells<'a>(texts: Texts<'a>, spelling: Spelling, text: &[u8]) -> bool
    ensures { result ≡ same_text (spelled (lent texts) spelling) text.now }
{
    text.len() <= wide(spelling.length)
        && same_ascii(long(spelling.form), part(texts, spelling), text)
}
