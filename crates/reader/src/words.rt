// What is read of a scalar or of a name: a spelling, which says where its text stands.
ghost use Rattle.std.specs.Prelude.{◌≡◌, ◌+◌, ◌<◌, ◌≤◌, length};
ghost use Rattle.spec.specs.Read.{number_value, string_value};
ghost use Rattle.lexer.specs.Answers.{scan_outcome};
ghost use Rattle.tape.specs.Layout.{values, sources, number_kind, string_kind, array_kind};
ghost use Rattle.reader.specs.Begins.{scalar_of};
ghost use Rattle.reader.specs.Words.{no_spelling, nameless, number_spelling, string_form, string_spelling};
ghost use Rattle.reader.specs.Words.{literal_end, past_separator, ScalarIs};

use lexer::Cursor;
use spec::refusal::{Fault, Refusal};
use tape::fields::Spelling;
use tape::{fields, layout};

// The cursor after a scalar, and its spelling.
#[derive(Clone, Copy)]
pub struct Spelled {
    pub next: Cursor,
    pub spelling: Spelling,
}

// A name, and the cursor where the value of that name begins.
#[derive(Clone, Copy)]
pub struct Named {
    pub next: Cursor,
    pub name: fields::Name,
}

// The spelling of what has no text.
pub fn no_spelling() -> Spelling
    ensures { result ≡ no_spelling }
{
    Spelling {
        form: layout::NO_TEXT,
        source: 0,
        start: 0,
        length: 0,
    }
}

// The name of what has none: of the root, and of an array's element.
pub fn no_name() -> fields::Name
    ensures { result ≡ nameless }
{
    fields::Name {
        text: no_spelling(),
        hash: 0,
    }
}

#[tactic(auto, unfolding(crate::specs::Words::string_form))]
fn string_form(plain: bool) -> u16
    ensures { result ≡ string_form plain }
{
    if plain {
        layout::PLAIN_STRING
    } else {
        layout::ESCAPED_STRING
    }
}

// The spelling of a string. Its characters begin at `start` and end before the closing quotation mark; `next` is behind
// that.
pub fn spell_string(plain: bool, source: u16, start: usize, next: usize) -> Spelling
    requires { (start < next) × (next < values) }
    ensures { result ≡ string_spelling plain source start next }
{
    Spelling {
        form: string_form(plain),
        source,
        start: fields::narrow(start),
        length: fields::narrow(next - 1 - start),
    }
}

// The spelling of a number between two places.
fn spell_number(source: u16, at: usize, next: usize) -> Spelling
    requires { (at ≤ next) × (next < values) }
    ensures { result ≡ number_spelling source at next }
{
    Spelling {
        form: layout::NUMERAL,
        source,
        start: fields::narrow(at),
        length: fields::narrow(next - at),
    }
}

fn number(s: &[u8], at: Cursor, source: u16) -> Result<Spelled, Fault>
    requires { (source < sources) × (length s.now < values) }
    ensures { ScalarIs source s.now number_kind (number_value s.now at.at) result }
{
    let next = at.number(s)?;
    Ok(Spelled {
        next,
        spelling: spell_number(source, at.at, next.at),
    })
}

fn string(s: &[u8], at: Cursor, source: u16) -> Result<Spelled, Fault>
    requires { (source < sources) × (length s.now < values) }
    ensures { ScalarIs source s.now string_kind (string_value s.now at.at) result }
{
    let read = at.quoted(s)?;
    let next = read.next;
    Ok(Spelled {
        next,
        spelling: spell_string(read.plain, source, at.at + 1, next.at),
    })
}

// The cursor after the byte here, which is in the text.
pub fn past_byte(s: &[u8], at: Cursor) -> Cursor
    requires { at.at < length s.now }
    ensures { result.at ≡ at.at + 1 }
{
    let read = at.read(s);
    read.next
}

// The cursor after a comma or a colon that must stand here, and after the blanks behind it.
pub fn separator(s: &[u8], at: Cursor, mark: u8) -> Result<Cursor, Fault>
    requires { 1 ≤ mark }
    ensures { scan_outcome result ≡ past_separator s.now mark at.at }
{
    let read = at.read(s);
    if read.byte != mark {
        return Err(Refusal::NotJson.at(at.at));
    }
    let behind = read.next;
    Ok(behind.blanks(s))
}

// The cursor after a literal of a kind, given the one after its first byte.
#[tactic(auto, using(lexer::proofs::Auto::auto), unfolding(crate::specs::Words::literal_end))]
fn literal(s: &[u8], rest: Cursor, kind: u16) -> Result<Cursor, Fault>
    ensures { scan_outcome result ≡ literal_end kind s.now rest.at }
{
    if kind == layout::NULL {
        return rest.null_literal(s);
    }
    if kind == layout::TRUE {
        return rest.true_literal(s);
    }
    rest.false_literal(s)
}

// The scalar of a kind at a cursor.
pub fn scalar(s: &[u8], at: Cursor, kind: u16, source: u16) -> Result<Spelled, Fault>
    requires { (source < sources) × (length s.now < values) × (at.at < length s.now) × (kind < array_kind) }
    ensures { ScalarIs source s.now kind (scalar_of kind s.now at.at) result }
{
    if kind == layout::STRING {
        return string(s, at, source);
    }
    if kind == layout::NUMBER {
        return number(s, at, source);
    }
    let next = literal(s, past_byte(s, at), kind)?;
    Ok(Spelled {
        next,
        spelling: no_spelling(),
    })
}
