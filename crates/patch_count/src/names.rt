// Names from standard input, one a line. Only a part of the input stands in memory: a name that is cut at the end of a
// part goes on in the next.
ghost use Rattle.std.specs.Prelude.{◌≡◌, ◌==◌, ◌<◌, IfOk, IfSome, length, position};
ghost use Rattle.patch_count.specs.Names.{LineEndIs};
ghost use Rattle.patch_count.specs.Sums.{Sums, FedIs};

use crate::files::{Work, count_file};
use crate::tally::{Tally, one_refused};
use std::rt::Files;

// More names are too many. Empty lines are no names.
const MAX_NAMES: usize = 1_000_000;

#[derive(Clone, Copy)]
pub struct TooMany;

// How many bytes there are of the name that is not complete yet, none where it has more than there is room for; and the
// sums over the names before it.
#[derive(Clone, Copy)]
pub struct State {
    pub pending: Option<usize>,
    pub tally: Tally,
}

// The first `byte`.
fn first(bytes: &[u8], byte: u8) -> Option<usize>
    ensures { result ≡ position (λ b. b == byte) bytes.now }
{
    bytes.iter().position(|b| *b == byte)
}

// Where the line with which these bytes begin ends: at its line feed, if there is one.
fn line_end(bytes: &[u8]) -> Option<usize>
    ensures line { LineEndIs bytes.now result }
    ensures inside { IfSome result (λ i. i < length bytes.now) }
{
    first(bytes, b'\n')
}

// These bytes are put behind the `pending` bytes of the name. The answer is how many it has then, none where it has
// more than there is room for. Such a name is unreadable.
fn append(name: &mut [u8], pending: Option<usize>, bytes: &[u8]) -> Option<usize> {
    let start = pending?;
    let end = start.checked_add(bytes.len())?;
    name.get_mut(start..end)?.copy_from_slice(bytes);
    Some(end)
}

// The name of `pending` bytes is complete.
pub fn finish<R: Files>(
    rt: &R,
    name: &[u8],
    pending: Option<usize>,
    work: &mut Work,
    t: Tally,
) -> Result<Tally, TooMany>
    requires { Sums t }
    ensures { IfOk result Sums }
{
    if pending == Some(0) {
        return Ok(t);
    }
    if MAX_NAMES <= t.patches {
        return Err(TooMany);
    }
    let Some(whole) = pending.and_then(|n| name.get(..n)) else {
        return Ok(one_refused(t));
    };
    Ok(count_file(rt, whole, work, t))
}

// The names in a part of the input.
pub fn feed<R: Files>(
    rt: &R,
    chunk: &[u8],
    name: &mut [u8],
    work: &mut Work,
    state: State,
) -> Result<State, TooMany>
    requires { Sums state.tally }
    ensures { FedIs result }
{
    let mut rest = chunk;
    let mut s = state;
    while let Some(end) = line_end(rest) {
        let pending = append(name, s.pending, &rest[..end]);
        let tally = finish(rt, name, pending, work, s.tally)?;
        s = State {
            pending: Some(0),
            tally,
        };
        rest = &rest[end + 1..];
    }
    Ok(State {
        pending: append(name, s.pending, rest),
        tally: s.tally,
    })
}
