// The pieces of a value's text, each laid down at the front of `out`, which is the rest of the output.
ghost use Rattle.tape.specs.Lent.{lent};
ghost use Rattle.std.specs.Prelude.{◌≡◌};
ghost use Rattle.spec.specs.Write.{comma};
ghost use Rattle.writer.specs.Pieces.{string_bytes, literal_bytes, scalar_bytes, opening_bracket, closing_bracket};
ghost use Rattle.writer.specs.Pieces.{name_bytes, prefix_bytes};
ghost use Rattle.writer.specs.Writing.{Placed};

use crate::output::{put_byte, put_part, put_quoted};
use table::spellings::part;
use tape::fields::{Name, Spelling};
use tape::layout;
use tape::layout::Texts;

// A string between its quotation marks, each of its three pieces on its own.
fn write_pieces<'a>(texts: Texts<'a>, spelling: Spelling, out: &mut [u8]) -> usize
    ensures { Placed (string_bytes (lent texts) spelling) 0 out.old out.new result }
{
    let s = part(texts, spelling);
    let mut put = put_byte(b'"', out);
    let n = put_part(spelling.form, s, &mut out[put..]);
    put += n;
    let last = put_byte(b'"', &mut out[put..]);
    put + last
}

// A string between its quotation marks. Without escapes, and with room for all of it, it is laid down in one piece.
pub fn write_string<'a>(texts: Texts<'a>, spelling: Spelling, out: &mut [u8]) -> usize
    ensures { Placed (string_bytes (lent texts) spelling) 0 out.old out.new result }
{
    let s = part(texts, spelling);
    if spelling.form != layout::PLAIN_STRING || out.len() < 2 || out.len() - 2 < s.len() {
        return write_pieces(texts, spelling, out);
    }
    put_quoted(s, out)
}

// The literal of a kind.
#[tactic(auto, using(lexer::proofs::Auto::auto), unfolding(crate::specs::Pieces::literal_bytes, spec::specs::Bytes::ascii))]
pub fn literal(kind: u16) -> &'static [u8]
    ensures { result.now ≡ literal_bytes kind }
{
    match kind {
        layout::TRUE => b"true",
        layout::FALSE => b"false",
        _ => b"null",
    }
}

// A value that is no container; a number is copied.
pub fn write_scalar<'a>(texts: Texts<'a>, kind: u16, value: Spelling, out: &mut [u8]) -> usize
    ensures { Placed (scalar_bytes (lent texts) kind value) 0 out.old out.new result }
{
    if kind == layout::STRING {
        return write_string(texts, value, out);
    }
    if kind == layout::NUMBER {
        let s = part(texts, value);
        return put_part(layout::PLAIN_STRING, s, out);
    }
    put_part(layout::PLAIN_STRING, literal(kind), out)
}

// The brackets of an object, or of an array.
#[tactic(auto, unfolding(crate::specs::Pieces::opening_bracket))]
pub fn opening_bracket(object: bool) -> u8
    ensures { result ≡ opening_bracket object }
{
    if object { b'{' } else { b'[' }
}

#[tactic(auto, unfolding(crate::specs::Pieces::closing_bracket))]
pub fn closing_bracket(object: bool) -> u8
    ensures { result ≡ closing_bracket object }
{
    if object { b'}' } else { b']' }
}

fn write_comma(first: bool, out: &mut [u8]) -> usize
    ensures { Placed (comma first) 0 out.old out.new result }
{
    if first {
        return 0;
    }
    put_byte(b',', out)
}

// A member's name and the colon.
fn write_name<'a>(texts: Texts<'a>, object: bool, name: Name, out: &mut [u8]) -> usize
    ensures { Placed (name_bytes (lent texts) object name) 0 out.old out.new result }
{
    if !object {
        return 0;
    }
    let put = write_string(texts, name.text, out);
    let last = put_byte(b':', &mut out[put..]);
    put + last
}

// What stands before a value in a container.
pub fn write_prefix<'a>(
    texts: Texts<'a>,
    object: bool,
    first: bool,
    name: Name,
    out: &mut [u8],
) -> usize
    ensures { Placed (prefix_bytes (lent texts) object first name) 0 out.old out.new result }
{
    let put = write_comma(first, out);
    let n = write_name(texts, object, name, &mut out[put..]);
    put + n
}
