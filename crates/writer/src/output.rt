// Bytes laid down at the front of `out`, which is the rest of the output: as many as there is room for. The answer is
// how many.
ghost use Rattle.std.specs.Prelude.{[], ◌∷◌, ◌++◌, ◌+◌, ◌≤◌, length};
ghost use Rattle.text.specs.Written.{written};
ghost use Rattle.writer.specs.Writing.{Placed};

use crate::copies::copy_behind_quote;
use tape::fields::long;
use text::write_text;

// One byte.
pub fn put_byte(byte: u8, out: &mut [u8]) -> usize
    ensures { Placed (byte ∷ []) 0 out.old out.new result }
{
    if out.is_empty() {
        return 0;
    }
    out[0] = byte;
    1
}

// What a part says, in its form. A part of form 1 is copied.
pub fn put_part(form: u16, s: &[u8], out: &mut [u8]) -> usize
    ensures { Placed (written form s.now) 0 out.old out.new result }
{
    let count = write_text(long(form), s, out);
    count.min(out.len())
}

// Bytes between quotation marks, where there is room for all of it.
pub fn put_quoted(s: &[u8], out: &mut [u8]) -> usize
    requires { length s.now + 2 ≤ length out.old }
    ensures { Placed ((0x22 ∷ []) ++ s.now ++ (0x22 ∷ [])) 0 out.old out.new result }
{
    out[0] = b'"';
    copy_behind_quote(s, out);
    let n = s.len();
    out[1 + n] = b'"';
    n + 2
}
