// The decimal digits of a position.
ghost use Rattle.std.specs.Prelude.{◌≡◌, ◌+◌, ◌%◌, length};
ghost use Rattle.reversal.specs.Undo.{index_token};
ghost use Rattle.writer.specs.Writing.{Placed};

use writer::put_byte;

fn last_digit(n: usize) -> u8
    ensures { result ≡ 48 + n % 10 }
{
    b'0' + (n % 10) as u8
}

// It calls itself, since the last digit is the first that is known and no digit is kept.
// They are laid down at the front of `out`, which is the rest of the output: as many as there is room for. The answer
// is how many.
pub fn put_digits(n: usize, out: &mut [u8]) -> usize
    ensures { Placed (index_token n) 0 out.old out.new result }
{
    if n < 10 {
        return put_byte(last_digit(n), out);
    }
    let put = put_digits(n / 10, out);
    let last = put_byte(last_digit(n), &mut out[put..]);
    put + last
}

// How many there are.
pub fn digits_length(n: usize) -> usize
    ensures { result ≡ length (index_token n) }
{
    match n.checked_ilog10() {
        Some(tens) => tens as usize + 1,
        None => 1,
    }
}
