// Words and parts of the file.
ghost use Rattle.std.specs.Prelude.{◌≡◌, ◌==◌, ◌<◌, IfSome, length, take, position};
ghost use Rattle.cases.specs.Taking.{found, cut, word_at, bytes_at};

// The first `byte`.
fn first(bytes: &[u8], byte: u8) -> Option<usize>
    ensures { result ≡ position (λ b. b == byte) bytes.now }
{
    bytes.iter().position(|b| *b == byte)
}

// The first `byte` from `at` on.
#[tactic(auto, unfolding(crate::specs::Taking::found))]
fn find(file: &[u8], at: usize, byte: u8) -> Option<usize>
    ensures place { result ≡ found file.now at byte }
    ensures inside { IfSome result (λ i. i < length file.now) }
{
    let n = first(file.get(at..)?, byte)?;
    Some(at + n)
}

// A part of the file.
#[derive(Clone, Copy)]
pub struct Part {
    pub start: usize,
    pub end: usize,
}

// A part's bytes; none if the file has no such part.
#[tactic(auto, unfolding(crate::specs::Taking::cut))]
pub fn bytes_of<'a>(file: &'a [u8], p: Part) -> &'a [u8]
    ensures { result.now ≡ cut file.now p }
{
    file.get(p.start..p.end).unwrap_or(&file[..0])
}

// The first `n` bytes, or all if there are fewer.
pub fn front<'a>(bytes: &'a [u8], n: usize) -> &'a [u8]
    ensures { result.now ≡ take n bytes.now }
{
    bytes.get(..n).unwrap_or(bytes)
}

// What was taken from the file, and the place behind it and the byte that ends it.
#[derive(Clone, Copy)]
pub struct Taken<T> {
    pub value: T,
    pub next: usize,
}

// What stands from `at` on, up to the byte `end`.
#[tactic(auto, unfolding(crate::specs::Taking::word_at))]
pub fn word_at(file: &[u8], at: usize, end: u8) -> Option<Taken<Part>>
    ensures { result ≡ word_at file.now at end }
{
    let i = find(file, at, end)?;
    let value = Part { start: at, end: i };
    Some(Taken { value, next: i + 1 })
}

// `count` bytes that a newline ends.
#[tactic(auto, unfolding(crate::specs::Taking::bytes_at))]
pub fn bytes_at(file: &[u8], at: usize, count: usize) -> Option<Taken<Part>>
    ensures { result ≡ bytes_at file.now at count }
{
    let end = at.checked_add(count)?;
    if *file.get(end)? != b'\n' {
        return None;
    }
    let value = Part { start: at, end };
    Some(Taken {
        value,
        next: end + 1,
    })
}
