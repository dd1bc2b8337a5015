// A case in the file of cases: a header, a newline, and texts, each with a newline behind it. The header has a word,
// the case's name, numbers that say how much is lent, and the length of each text, with a blank between each two.
ghost use Rattle.std.specs.Prelude.{◌≡◌};
ghost use Rattle.cases.specs.CaseFile.{name_at, text_at, texts_at, case_word, case_at};

use crate::numbers::{Three, three_at};
use crate::words::{Part, Taken, bytes_at, bytes_of, word_at};

// The name of the case that begins with `word` at the place `at`.
#[tactic(auto, using(spec::proofs::TextLaws::compared), unfolding(crate::specs::CaseFile::name_at))]
fn name_at(file: &[u8], at: usize, word: &[u8]) -> Option<Taken<Part>>
    ensures { result ≡ name_at file.now at word.now }
{
    let first = word_at(file, at, b' ')?;
    if bytes_of(file, first.value) != word {
        return None;
    }
    word_at(file, first.next, b' ')
}

// The text with `i` before it, of `count` texts; an empty part if there is none.
#[tactic(auto, unfolding(crate::specs::CaseFile::text_at))]
fn text_at(file: &[u8], at: usize, i: usize, count: usize, length: usize) -> Option<Taken<Part>>
    ensures { result ≡ text_at file.now at i count length }
{
    if count <= i {
        let value = Part { start: at, end: at };
        return Some(Taken { value, next: at });
    }
    bytes_at(file, at, length)
}

// `count` texts of these lengths, up to three. Those that a case does not have are empty.
#[tactic(auto, unfolding(crate::specs::CaseFile::texts_at))]
fn texts_at(
    file: &[u8],
    at: usize,
    lengths: Three<usize>,
    count: usize,
) -> Option<Taken<Three<Part>>>
    ensures { result ≡ texts_at file.now at lengths count }
{
    let first = text_at(file, at, 0, count, lengths.first)?;
    let second = text_at(file, first.next, 1, count, lengths.second)?;
    let third = text_at(file, second.next, 2, count, lengths.third)?;
    let value = Three {
        first: first.value,
        second: second.value,
        third: third.value,
    };
    Some(Taken {
        value,
        next: third.next,
    })
}

// A case: its name, how much it lends, its texts, and the place behind it.
#[derive(Clone, Copy)]
pub struct Case {
    pub name: Part,
    pub rooms: Three<usize>,
    pub texts: Three<Part>,
    pub next: usize,
}

// The case that begins with `word` at the place `at` and has `rooms` numbers and `texts` texts, up to three of each.
#[tactic(auto, unfolding(crate::specs::CaseFile::case_at))]
pub fn case_of(file: &[u8], at: usize, word: &[u8], rooms: usize, texts: usize) -> Option<Case>
    ensures { result ≡ case_at file.now at word.now rooms texts }
{
    let name = name_at(file, at, word)?;
    let lent = three_at(file, name.next, rooms, b' ')?;
    let lengths = three_at(file, lent.next, texts, b'\n')?;
    let stand = texts_at(file, lengths.next, lengths.value, texts)?;
    Some(Case {
        name: name.value,
        rooms: lent.value,
        texts: stand.value,
        next: stand.next,
    })
}

// The same with the word `case`, which most files use.
pub fn case_at(file: &[u8], at: usize, rooms: usize, texts: usize) -> Option<Case>
    ensures { result ≡ case_at file.now at case_word rooms texts }
{
    case_of(file, at, b"case", rooms, texts)
}
