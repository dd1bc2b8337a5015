// The line that is printed.
ghost use Rattle.std.specs.Prelude.{◌≡◌};
ghost use Rattle.writer.specs.Writing.{Placed};
ghost use Rattle.inspect.specs.Counts.{counts_in};
ghost use Rattle.inspection.specs.Inspection.{total};
ghost use Rattle.patch_count.specs.Sums.{Sums, LineIs};
ghost use Rattle.patch_count.specs.Pieces.{first_piece, second_piece, last_piece, whole_line, Summed};

use crate::tally::Tally;
use inspect::Counts;
use report::{put_bytes, put_two_fields};

// No line is longer: 69 bytes are the same in each, and each of its ten numbers has at most 9 digits.
pub const LINE: usize = 159;

// `patches` to `remove`.
fn put_first(t: Tally, out: &mut [u8]) -> usize
    ensures { Placed (first_piece t) 0 out.old out.new result }
{
    let c = t.counts;
    let patches = t.patches as u64;
    let refused = t.refused as u64;
    let adds = c.adds as u64;
    let removes = c.removes as u64;
    let put = put_two_fields(b"patches ", patches, b" refused ", refused, out);
    let more = put_two_fields(b" add ", adds, b" remove ", removes, &mut out[put..]);
    put + more
}

// `replace` to `test`.
fn put_second(c: Counts, out: &mut [u8]) -> usize
    ensures { Placed (second_piece c) 0 out.old out.new result }
{
    let replaces = c.replaces as u64;
    let moves = c.moves as u64;
    let copies = c.copies as u64;
    let tests = c.tests as u64;
    let put = put_two_fields(b" replace ", replaces, b" move ", moves, out);
    let more = put_two_fields(b" copy ", copies, b" test ", tests, &mut out[put..]);
    put + more
}

// `ops`, `over` and the newline.
fn put_last(ops: usize, over: usize, out: &mut [u8]) -> usize
    ensures { Placed (last_piece ops over) 0 out.old out.new result }
{
    let put = put_two_fields(b" ops ", ops as u64, b" over ", over as u64, out);
    let more = put_bytes(b"\n", &mut out[put..]);
    put + more
}

fn put_line(t: Tally, ops: usize, over: usize, out: &mut [u8]) -> usize
    ensures { Placed (whole_line t ops over) 0 out.old out.new result }
{
    let counts = t.counts;
    let mut put = put_first(t, out);
    let n = put_second(counts, &mut out[put..]);
    put += n;
    let last = put_last(ops, over, &mut out[put..]);
    put + last
}

// The sum of the six.
fn sum(c: Counts) -> usize
    requires { Summed c }
    ensures { result ≡ total (counts_in c) }
{
    c.adds + c.removes + c.replaces + c.moves + c.copies + c.tests
}

// The line of the files that were visited; the answer is its length.
pub fn line(t: Tally, out: &mut [u8; LINE]) -> usize
    requires { Sums t }
    ensures { LineIs t out.new result }
{
    let counts = t.counts;
    let ops = sum(counts);
    let over = t.patches - t.refused;
    put_line(t, ops, over, out)
}
