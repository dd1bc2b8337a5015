// What the functions of this crate answer.

// Where the tokens of a pointer begin: nowhere, in the empty pointer, which names the root; at a place, after the
// first slash; or the text does not begin with a slash.
#[derive(Clone, Copy)]
pub enum First {
    Root,
    At(usize),
    Malformed,
}

// A token by the place where it ends. The last one runs to the end of the part, or to the first byte that is no
// character's; behind any other stands a slash, and the next token begins after it.
#[derive(Clone, Copy)]
pub enum Token {
    Last { end: usize },
    Next { end: usize, next: usize },
}

// What a token is to an array: `-`, which stands for the element behind the last; an index below the limit; an index
// beyond it, of any length; or none of these.
#[derive(Clone, Copy)]
pub enum Index {
    Dash,
    At(usize),
    Beyond,
    Not,
}
