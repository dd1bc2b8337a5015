// A number's digits before its exponent, on either side of the point.

ghost use Rattle.std.specs.Prelude.{◌≡◌, ◌≤◌, ◌||◌, ◌==◌, not, length, position, count_by};
ghost use Rattle.std.specs.List.{take_while};
ghost use Rattle.spec.specs.Numbers.{is_digit, is_e};
ghost use Rattle.spec.specs.Worth.{mantissa, fraction_digits, trimmed};
ghost use Rattle.decimal.specs.Normal.{is_nonzero_digit, first_digit};

// The place of the first significant digit, or where the mantissa ends.
pub fn first_digit(t: &[u8]) -> usize
    ensures is { result ≡ first_digit t.now }
    ensures inside { result ≤ length t.now }
{
    significant_place(t).unwrap_or(t.len())
}

// The place of the first significant digit, or of the exponent's letter if that comes first.
fn significant_place(t: &[u8]) -> Option<usize>
    ensures { result ≡ position (λ b. is_e b || is_nonzero_digit b) t.now }
{
    t.iter().position(|b| is_e(*b) || is_nonzero_digit(*b))
}

// How many digits the mantissa of a text has, without the zeros at its end.
pub fn significant(t: &[u8]) -> usize
    ensures { result ≡ length (trimmed (mantissa t.now)) }
{
    let mut seen = 0;
    let mut kept = 0;
    for &b in t {
        if is_e(b) {
            break;
        }
        if !is_digit(b) {
            continue;
        }
        seen += 1;
        if b != b'0' {
            kept = seen;
        }
    }
    kept
}

// How many digits the mantissa of a text has.
pub fn digits(t: &[u8]) -> usize
    ensures { result ≡ count_by is_digit (take_while (λ b. not (is_e b)) t.now) }
{
    t.iter()
        .take_while(|b| !is_e(**b))
        .filter(|b| is_digit(**b))
        .count()
}

// How many digits follow the point.
pub fn fraction(t: &[u8]) -> usize
    ensures { result ≡ fraction_digits t.now }
{
    match point(t) {
        Some(at) => digits(&t[at..]),
        None => 0,
    }
}

// The place of the point, or of the exponent's letter if that comes first.
fn point(t: &[u8]) -> Option<usize>
    ensures { result ≡ position (λ b. b == 46 || is_e b) t.now }
{
    t.iter().position(|b| *b == b'.' || is_e(*b))
}

pub fn is_digit(b: u8) -> bool
    ensures { result ≡ is_digit b }
{
    b.is_ascii_digit()
}

fn is_nonzero_digit(b: u8) -> bool
    ensures { result ≡ is_nonzero_digit b }
{
    (b'1'..=b'9').contains(&b)
}

pub fn is_e(b: u8) -> bool
    ensures { result ≡ is_e b }
{
    matches!(b, b'e' | b'E')
}
