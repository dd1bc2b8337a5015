// Bytes copied into the output.
ghost use Rattle.std.specs.Prelude.{◌≡◌, ◌+◌, ◌≤◌, length, take, drop};
ghost use Rattle.std.proofs.lemmas.List.Edits.{sets};

// The `count` bytes of `s` from `from` on, to the place `to` of the output and behind. A loop and no `copy_from_slice`:
// that calls `memmove`, and the library needs `memcpy` and `memset` alone.
fn copy(s: &[u8], from: usize, count: usize, out: &mut [u8], to: usize)
    requires { (from + count ≤ length s.now) × (to + count ≤ length out.old) }
    ensures { out.new ≡ sets out.old to (take count (drop from s.now)) }
{
    for i in 0..count {
        out[to + i] = s[from + i];
    }
}

// All of `s`, by its first `count` bytes and its last `count`. Where these overlap, a byte is copied twice.
fn copy_ends(s: &[u8], count: usize, out: &mut [u8])
    requires count_in_bounds { (count ≤ length s.now) × (length s.now ≤ count + count) }
    requires s_in_bounds { 1 + length s.now ≤ length out.old }
    ensures { out.new ≡ sets out.old 1 s.now }
{
    let rest = s.len() - count;
    copy(s, 0, count, out, 1);
    copy(s, rest, count, out, 1 + rest);
}

// All of `s`, to the second byte of the output and behind. A short text is copied without a loop whose length a
// processor would have to predict.
pub fn copy_behind_quote(s: &[u8], out: &mut [u8])
    requires { 1 + length s.now ≤ length out.old }
    ensures { out.new ≡ sets out.old 1 s.now }
{
    let n = s.len();
    if n < 4 {
        copy(s, 0, n, out, 1);
        return;
    }
    if n < 8 {
        copy_ends(s, 4, out);
        return;
    }
    if n <= 16 {
        copy_ends(s, 8, out);
        return;
    }
    copy(s, 0, n, out, 1);
}
