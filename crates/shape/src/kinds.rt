// The kinds of operations, by their names: RFC 6902, section 4.
ghost use Rattle.std.specs.Prelude.{◌≡◌};
ghost use Rattle.spec.specs.Outcome.{ok};
ghost use Rattle.spec.specs.Patch.{kind_named};
ghost use Rattle.tape.specs.Lent.{lent};
ghost use Rattle.table.specs.Meaning.{spelled};
ghost use Rattle.shape.specs.Kinds.{spec_kind, kind_outcome, uses_of};

use lexer::peek;
use table::spellings::{part, spells};
use tape::fields::Spelling;
use tape::layout::Texts;

#[derive(Clone, Copy, Debug, PartialEq, Eq)]
pub enum Kind {
    Add,
    Remove,
    Replace,
    Move,
    Copy,
    Test,
}

// What a kind uses beside `op` and `path`, and whether it moves a value. An unknown kind uses nothing.
#[derive(Clone, Copy)]
pub struct Uses {
    pub value: bool,
    pub from: bool,
    pub moves: bool,
}

fn using(value: bool, from: bool, moves: bool) -> Uses
    ensures { result ≡ record { value = value; from = from; moves = moves } }
{
    Uses { value, from, moves }
}

pub fn uses_of(kind: Option<Kind>) -> Uses
    ensures { result ≡ uses_of kind }
{
    let Some(kind) = kind else {
        return using(false, false, false);
    };
    match kind {
        Kind::Add => using(true, false, false),
        Kind::Remove => using(false, false, false),
        Kind::Replace => using(true, false, false),
        Kind::Move => using(false, true, true),
        Kind::Copy => using(false, true, false),
        Kind::Test => using(true, false, false),
    }
}

// The kind that a text names. Each of the six words is tried in turn.
// No table of words: each line here names its word and its kind.
fn any_kind<'a>(texts: Texts<'a>, op: Spelling) -> Option<Kind>
    ensures { kind_outcome result ≡ kind_named (spelled (lent texts) op) }
{
    if spells(texts, op, b"add") {
        return Some(Kind::Add);
    }
    if spells(texts, op, b"remove") {
        return Some(Kind::Remove);
    }
    if spells(texts, op, b"replace") {
        return Some(Kind::Replace);
    }
    if spells(texts, op, b"move") {
        return Some(Kind::Move);
    }
    if spells(texts, op, b"copy") {
        return Some(Kind::Copy);
    }
    if spells(texts, op, b"test") {
        return Some(Kind::Test);
    }
    None
}

// The kind that a text names. The word of one kind is tried first.
fn likely_kind<'a>(texts: Texts<'a>, op: Spelling, word: &[u8], kind: Kind) -> Option<Kind>
    requires { ok (spec_kind kind) ≡ kind_named word.now }
    ensures { kind_outcome result ≡ kind_named (spelled (lent texts) op) }
{
    if spells(texts, op, word) {
        return Some(kind);
    }
    any_kind(texts, op)
}

// The kind that a text names. Its first byte tells which word is likely. Where the text is another, as it is with an
// escape, all words are tried.
#[tactic(auto, unfolding(crate::proofs::KindLaws::words))]
pub fn kind_named<'a>(texts: Texts<'a>, op: Spelling) -> Option<Kind>
    ensures { kind_outcome result ≡ kind_named (spelled (lent texts) op) }
{
    match peek(part(texts, op), 0) {
        b'a' => likely_kind(texts, op, b"add", Kind::Add),
        b'c' => likely_kind(texts, op, b"copy", Kind::Copy),
        b'm' => likely_kind(texts, op, b"move", Kind::Move),
        b't' => likely_kind(texts, op, b"test", Kind::Test),
        b'r' if op.length == 6 => likely_kind(texts, op, b"remove", Kind::Remove),
        b'r' => likely_kind(texts, op, b"replace", Kind::Replace),
        _ => any_kind(texts, op),
    }
}
