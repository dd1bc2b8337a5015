// Whether two texts are the same.
ghost use Rattle.std.specs.Prelude.{◌≡◌, []};
ghost use Rattle.spec.specs.Value.{same_text};
ghost use Rattle.text.specs.Decode.{text_from, text_of};
ghost use Rattle.text.specs.Letters.{Common};

use crate::letters::{any_letter, is_form, is_letter, letter, plain};

// Whether a text has ended at a place of its part.
fn ended(form: u64, s: &[u8], at: usize) -> bool
    ensures { result ≡ same_text [] (text_from form s.now at) }
{
    letter(form, s, at).is_err()
}

// How many bytes at the front of two parts are the same, each a letter by itself. Passed at once, they need one test
// each, and not two.
fn common(form: u64, a: &[u8], other: u64, b: &[u8]) -> usize
    ensures { Common form a.now other b.now result }
{
    if !is_form(form) || !is_form(other) {
        return 0;
    }
    let end = a.len().min(b.len());
    for i in 0..end {
        if a[i] != b[i] || !is_letter(a[i]) {
            return i;
        }
    }
    end
}

// Whether two parts say the same text, character by character after the bytes that they begin with in common.
fn same_letters(form: u64, a: &[u8], other: u64, b: &[u8]) -> bool
    ensures { result ≡ same_text (text_of form a.now) (text_of other b.now) }
{
    let start = common(form, a, other, b);
    let mut i = start;
    let mut j = start;
    loop {
        let p = plain(form, a, i);
        if p != 0 && plain(other, b, j) == p {
            i += 1;
            j += 1;
            continue;
        }
        if a.len() <= i {
            return ended(other, b, j);
        }
        let Ok(c) = any_letter(form, a, i) else {
            return ended(other, b, j);
        };
        let Ok(d) = any_letter(other, b, j) else {
            return false;
        };
        if c.code != d.code {
            return false;
        }
        i = c.next.at;
        j = d.next.at;
    }
}

// Whether a part in a form says the same text as another part in another form. The same bytes in the same form do.
pub fn same_text(form: u64, a: &[u8], other: u64, b: &[u8]) -> bool
    ensures { result ≡ same_text (text_of form a.now) (text_of other b.now) }
{
    if form == other && a == b {
        return true;
    }
    same_letters(form, a, other, b)
}

// Whether a part says a text whose code points are the bytes of `constant`: a word of ASCII, such as `op`. Read as a
// string without escapes, `constant` has each letter where the word has it.
pub fn same_ascii(form: u64, a: &[u8], constant: &[u8]) -> bool
    ensures { result ≡ same_text (text_of form a.now) constant.now }
{
    let start = common(form, a, 1, constant);
    let mut i = start;
    let mut j = start;
    loop {
        let Ok(c) = letter(form, a, i) else {
            return j == constant.len();
        };
        if constant.len() <= j {
            return false;
        }
        if c.code != constant[j] as u32 {
            return false;
        }
        i = c.next.at;
        j += 1;
    }
}
