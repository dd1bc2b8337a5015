// A character that is written as an escape: SPECIFICATION 8.3.
ghost use Rattle.std.specs.Prelude.{◌≡◌, ◌<◌};
ghost use Rattle.spec.specs.Write.{hex_digit};
ghost use Rattle.text.specs.Written.{short_letter};

// The letter of a character's two-character escape, and 0 where it has none.
pub fn short_letter(c: u32) -> u8
    ensures { result ≡ short_letter c }
{
    match c {
        0x22 => b'"',
        0x5C => b'\\',
        0x08 => b'b',
        0x09 => b't',
        0x0A => b'n',
        0x0C => b'f',
        0x0D => b'r',
        _ => 0,
    }
}

// A hexadecimal digit, in lower case.
pub fn hex_digit(n: u8) -> u8
    requires { n < 16 }
    ensures { result ≡ hex_digit n }
{
    if n < 10 {
        return b'0' + n;
    }
    b'a' + (n - 10)
}
