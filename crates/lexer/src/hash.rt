// The hash of a text, a character at a time; that of the empty text is 0.
ghost use Rattle.std.specs.Prelude.{◌≡◌};
ghost use Rattle.lexer.specs.Hash.{mix};

// The hash of a text and one more character.
pub fn mix(hash: u32, c: u32) -> u32
    ensures { result ≡ mix hash c }
{
    ((hash as u64 * 165_904_091 + c as u64) % 0x1000_0000) as u32
}
