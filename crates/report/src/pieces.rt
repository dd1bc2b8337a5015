// The pieces of the line, each laid down at the front of `out`, which is the rest of the output: as many bytes as
// there is room for. The answer is how many. `write!` would not do: `Placed` in the contracts of `report` and `run`
// says what is laid down also where there is less room than the line, and `write!` says nothing of a line that does
// not fit.
ghost use Rattle.std.specs.Prelude.{◌≡◌, ◌+◌, ◌%◌, ◌++◌};
ghost use Rattle.writer.specs.Writing.{Placed};
ghost use Rattle.report.specs.Line.{in_decimal, last_field};
ghost use Rattle.report.specs.Report.{refusal_of, ending};

use json_patch::Answer;
use tape::fields::long;
use tape::layout::PLAIN_STRING;
use text::write_text;
use writer::put_byte;

pub fn put_bytes(s: &[u8], out: &mut [u8]) -> usize
    ensures { Placed s.now 0 out.old out.new result }
{
    let count = write_text(long(PLAIN_STRING), s, out);
    count.min(out.len())
}

fn last_digit(n: u64) -> u8
    ensures { result ≡ 48 + n % 10 }
{
    b'0' + (n % 10) as u8
}

// The digits of a number.
fn put_decimal(n: u64, out: &mut [u8]) -> usize
    ensures { Placed (in_decimal n) 0 out.old out.new result }
{
    if n < 10 {
        return put_byte(last_digit(n), out);
    }
    let put = put_decimal(n / 10, out);
    let last = put_byte(last_digit(n), &mut out[put..]);
    put + last
}

// A number after a word.
fn put_field(word: &[u8], n: u64, out: &mut [u8]) -> usize
    ensures { Placed (word.now ++ in_decimal n) 0 out.old out.new result }
{
    let put = put_bytes(word, out);
    let more = put_decimal(n, &mut out[put..]);
    put + more
}

// Two of them.
pub fn put_two_fields(first: &[u8], m: u64, second: &[u8], n: u64, out: &mut [u8]) -> usize
    ensures { Placed ((first.now ++ in_decimal m) ++ (second.now ++ in_decimal n)) 0
        out.old out.new result }
{
    let put = put_field(first, m, out);
    let more = put_field(second, n, &mut out[put..]);
    put + more
}

// The last of them, and the newline.
fn put_last_field(n: u64, out: &mut [u8]) -> usize
    ensures { Placed (last_field n) 0 out.old out.new result }
{
    let put = put_field(b" pointer ", n, out);
    let more = put_bytes(b"\n", &mut out[put..]);
    put + more
}

fn put_refusal(answer: Answer, out: &mut [u8]) -> usize
    ensures { Placed (refusal_of answer) 0 out.old out.new result }
{
    let number = answer.number as u64;
    let text = answer.text as u64;
    let op = answer.op as u64;
    let place = answer.place as u64;
    let pointer = answer.pointer as u64;
    let mut put = put_two_fields(b"refused ", number, b" text ", text, out);
    let n = put_two_fields(b" op ", op, b" place ", place, &mut out[put..]);
    put += n;
    let last = put_last_field(pointer, &mut out[put..]);
    put + last
}

// What stands in the line behind the written text.
pub fn put_ending(answer: Answer, out: &mut [u8]) -> usize
    ensures { Placed (ending answer) 0 out.old out.new result }
{
    if answer.number == 0 {
        return put_bytes(b"\n", out);
    }
    put_refusal(answer, out)
}
