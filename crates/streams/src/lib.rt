// Reading into buffers of a fixed size: the program's arguments, a file by its name, and as much of it as there is room
// for.
//
// What is proved: no more is read than there is room for, and where a reader's bytes are known, the buffer begins with
// those that it has given. No contract says what a file of the system gives.
#![tactic(auto)]

ghost use Rattle.std.specs.Prelude.{take, IfSome, OnSome};
ghost use Rattle.std.specs.Io.KnownBytes.{Consumes, IsAtEnd};
ghost use Rattle.streams.specs.Counts.{IsPrefixLen, BeginsWith};

use std::fs;
use std::io::Read;
use std::rt::{Env, Files};

// Room for a name: one with more bytes names no file.
pub const NAME: usize = 4_096;

// What the reader still gives is read to the front of `buf`, until that is full, or a read gives nothing or fails. The
// answer is how many bytes there are.
pub fn read_full<R: Read>(from: &mut R, buf: &mut [u8]) -> usize
    ensures within { IsPrefixLen result buf.new }
    ensures bytes { Consumes (R.remaining from.old) (R.remaining from.new) (take result buf.new) }
{
    // by hand, since std's `read_exact` says nothing of what was read before a read failed
    let mut done = 0;
    while done < buf.len() {
        let Ok(n) = from.read(&mut buf[done..]) else {
            return done;
        };
        if n == 0 {
            return done;
        }
        done += n;
    }
    done
}

// All of the file's bytes are read to the front of `buf`, and the answer is how many there are; none where the file
// cannot be read, or has more bytes than there is room for.
pub fn read_all<R: Read>(from: &mut R, buf: &mut [u8]) -> Option<usize>
    ensures within { IfSome result (λ n. IsPrefixLen n buf.new) }
    ensures bytes { IfSome result
        (λ n. Consumes (R.remaining from.old) (R.remaining from.new) (take n buf.new)) }
    ensures whole { OnSome result (IsAtEnd (R.remaining from.new)) }
{
    let n = read_full(from, buf);
    // another read answers 0 at the end of the file, and only there
    let mut more = [0u8; 1];
    match from.read(&mut more) {
        Ok(0) => Some(n),
        _ => None,
    }
}

// The file's first bytes, as many as there is room for, are read to the front of `buf`, and the answer is how many
// there are; none where the file cannot be read.
pub fn read_front<R: Read>(from: &mut R, buf: &mut [u8]) -> Option<usize>
    ensures within { IfSome result (λ n. IsPrefixLen n buf.new) }
    ensures bytes { IfSome result (λ n. BeginsWith (R.remaining from.old) (take n buf.new)) }
{
    let n = read_full(from, buf);
    if n == buf.len() {
        return Some(n);
    }
    // another read answers 0 where the file has ended, and fails where it cannot be read
    let mut more = [0u8; 1];
    from.read(&mut more).ok()?;
    Some(n)
}

// The file of that name, open for reading. A name that is no text, or has a zero byte, names none.
pub fn open_named<R: Files>(rt: &R, name: &[u8]) -> Option<R::File> {
    let path = str::from_utf8(name).ok()?;
    fs::open(rt, path).ok()
}

// Argument `i` is copied to the front of `buf`, and its length is the answer; 0 where there is none, or no room for it.
pub fn argument<R: Env>(rt: &R, i: usize, buf: &mut [u8]) -> usize
    ensures { IsPrefixLen result buf.new }
{
    rt.arg(i, buf).unwrap_or(0)
}

// The file that argument `i` names, open for reading.
pub fn open_argument<R: Env + Files>(rt: &R, i: usize) -> Option<R::File> {
    let mut name = [0u8; NAME];
    let n = argument(rt, i, &mut name);
    open_named(rt, &name[..n])
}
