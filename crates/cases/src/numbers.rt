// The numbers of a header.
ghost use Rattle.std.specs.Prelude.{◌≡◌};
ghost use Rattle.cases.specs.Numerals.{worth, number_at, counted, three_at};

use crate::words::{Taken, bytes_of, word_at};

// Another digit is read only while the number is at most this, so that none overflows.
const LARGEST: usize = 99_999_999;

// The number that digits say. At least one digit is needed.
fn worth(text: &[u8]) -> Option<usize>
    ensures { result ≡ worth text.now }
{
    if text.is_empty() {
        return None;
    }
    let mut n = 0;
    for &digit in text {
        if !digit.is_ascii_digit() || LARGEST < n {
            return None;
        }
        n = n * 10 + (digit - b'0') as usize;
    }
    Some(n)
}

// The number that the byte `end` ends.
#[tactic(auto, unfolding(crate::specs::Numerals::number_at))]
fn number_at(file: &[u8], at: usize, end: u8) -> Option<Taken<usize>>
    ensures { result ≡ number_at file.now at end }
{
    let word = word_at(file, at, end)?;
    let value = worth(bytes_of(file, word.value))?;
    Some(Taken {
        value,
        next: word.next,
    })
}

// The number with `i` before it, of `count` numbers; 0, without a byte read, if there is none. A blank ends each number
// but the last.
#[tactic(auto, unfolding(crate::specs::Numerals::counted))]
fn counted(file: &[u8], at: usize, i: usize, count: usize, end: u8) -> Option<Taken<usize>>
    ensures { result ≡ counted file.now at i count end }
{
    if count <= i {
        return Some(Taken { value: 0, next: at });
    }
    let end = if count - i == 1 { end } else { b' ' };
    number_at(file, at, end)
}

// Up to three of a kind. Named fields and not an array, since clauses of callers speak of them: `c.rooms.first`.
#[derive(Clone, Copy)]
pub struct Three<T> {
    pub first: T,
    pub second: T,
    pub third: T,
}

// `count` numbers, up to three, the last ended by `end`. Those that a case does not have are 0. `texts_at` is alike;
// one function for both would take a closure, of which its clause would have a relation where this one has an
// equation.
#[tactic(auto, unfolding(crate::specs::Numerals::three_at))]
pub fn three_at(file: &[u8], at: usize, count: usize, end: u8) -> Option<Taken<Three<usize>>>
    ensures { result ≡ three_at file.now at count end }
{
    let first = counted(file, at, 0, count, end)?;
    let second = counted(file, first.next, 1, count, end)?;
    let third = counted(file, second.next, 2, count, end)?;
    let value = Three {
        first: first.value,
        second: second.value,
        third: third.value,
    };
    Some(Taken {
        value,
        next: third.next,
    })
}
