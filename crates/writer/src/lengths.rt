// How long the pieces of a value's text are.
ghost use Rattle.tape.specs.Lent.{lent};
ghost use Rattle.std.specs.Prelude.{◌≡◌, length};
ghost use Rattle.spec.specs.Write.{comma};
ghost use Rattle.writer.specs.Pieces.{string_bytes, scalar_bytes, name_bytes, prefix_bytes};

use crate::pieces::literal;
use table::spellings::part;
use tape::fields::{Name, Spelling, long};
use tape::layout;
use tape::layout::Texts;
use text::written_length;

fn string_length<'a>(texts: Texts<'a>, spelling: Spelling) -> usize
    ensures { result ≡ length (string_bytes (lent texts) spelling) }
{
    let s = part(texts, spelling);
    written_length(long(spelling.form), s) + 2
}

// The length of a value that is no container.
pub fn scalar_length<'a>(texts: Texts<'a>, kind: u16, value: Spelling) -> usize
    ensures { result ≡ length (scalar_bytes (lent texts) kind value) }
{
    if kind == layout::STRING {
        return string_length(texts, value);
    }
    if kind == layout::NUMBER {
        let s = part(texts, value);
        return s.len();
    }
    literal(kind).len()
}

#[tactic(auto, unfolding(spec::specs::Write::comma, spec::specs::Bytes::ascii))]
fn comma_length(first: bool) -> usize
    ensures { result ≡ length (comma first) }
{
    if first { 0 } else { 1 }
}

fn name_length<'a>(texts: Texts<'a>, object: bool, name: Name) -> usize
    ensures { result ≡ length (name_bytes (lent texts) object name) }
{
    if !object {
        return 0;
    }
    string_length(texts, name.text) + 1
}

// The length of what stands before a value in a container.
pub fn prefix_length<'a>(texts: Texts<'a>, object: bool, first: bool, name: Name) -> usize
    ensures { result ≡ length (prefix_bytes (lent texts) object first name) }
{
    comma_length(first) + name_length(texts, object, name)
}
