// Hexadecimal digits. The two functions of one digit stand in crate fragment too: no crate below both has them, and
// `hex_digit` has a `requires` and so stays private (docs/DECISIONS.md, "Small functions that stand more than once").
ghost use Rattle.std.specs.Prelude.{◌≡◌, ◌+◌, ◌<◌, true, length, SomeIff};
ghost use Rattle.spec.specs.Strings.{hex_value};
ghost use Rattle.text.specs.UpperHex.{upper_hex};
ghost use Rattle.intel_hex.specs.Reading.{hex_byte, is_hex_byte};

// A digit in upper case.
#[tactic(auto, unfolding(text::specs::UpperHex::upper_hex))]
pub fn hex_digit(n: u8) -> u8
    requires { n < 16 }
    ensures { result ≡ upper_hex n }
{
    if n < 10 { b'0' + n } else { b'A' + (n - 10) }
}

// The value of a digit of either case.
#[tactic(auto, unfolding(spec::specs::Strings::hex_value, spec::specs::Bytes::within))]
fn hex_value(b: u8) -> Option<u8>
    ensures { SomeIff result (hex_value b < 16) (hex_value b) }
{
    match b {
        b'0'..=b'9' => Some(b - b'0'),
        b'A'..=b'F' => Some(b - b'A' + 10),
        b'a'..=b'f' => Some(b - b'a' + 10),
        _ => None,
    }
}

// The byte of the two digits at a place.
pub fn hex_byte(t: &[u8], k: usize) -> Option<u8>
    requires { k + 1 < length t.now }
    ensures { SomeIff result (is_hex_byte t.now k ≡ true) (hex_byte t.now k) }
{
    Some(hex_value(t[k])? * 16 + hex_value(t[k + 1])?)
}
