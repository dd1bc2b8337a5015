// Characters that stand in a text as they are written, passed by tables. Mixed text defeats branch prediction, so every
// byte takes the same few steps, whether it is a character or a part of one.
ghost use Rattle.std.specs.Prelude.{◌≡◌, Bool, ◌+◌, ◌≤◌, ◌<◌, length, eqb, if◌then◌else◌};
ghost use Rattle.lexer.specs.Verbatim.{Verbatim, VerbatimTo};
ghost use Rattle.lexer.specs.States.{look, block, look_over, Tables, Steps};

use byte_class::columns;

// A state says where a byte has led. Its number is how far a word of STEPS is shifted. 0 is between characters; 6, 12
// and 18 have one, two and three bytes of a character to come; 24, 30, 36 and 42 stand after E0, ED, F0 and F4; 48
// after a backslash; 54 is the end, and leads to itself.
const BETWEEN: u64 = 0;

const END: u64 = 54;

// The bytes of a block. Characters have one to four bytes, and 7 has no factor in common with 2, 3 or 4: so in a run of
// characters of one length, the places between blocks are soon between characters too.
const BLOCK: usize = 7;

// The column of the backslash.
const BACKSLASH: usize = 5;

// For each column, by its last four bits, the next state from each state, in two octal digits: from the right, those
// from 0, 6, 12 and so on. The columns are the classes of crate `byte_class`, with seven more that need more than a
// class.
const STEPS: [u64; 16] = [
    0o66_66_66_66_66_66_66_66_66_66, // control
    0o66_00_66_66_66_66_66_66_66_66, // quote
    0o66_66_66_66_66_66_66_66_66_06, // first of two
    0o66_66_66_66_66_66_66_66_66_14, // first of three
    0o66_66_66_66_66_66_66_66_66_22, // first of four
    0o66_00_66_66_66_66_66_66_66_60, // backslash
    0o66_66_14_66_06_66_14_06_00_66, // continuation, 80 to 8F
    0o66_66_66_14_06_66_14_06_00_66, // continuation, 90 to 9F
    0o66_66_66_66_66_66_66_66_66_66, // never
    0o66_66_66_66_66_66_66_66_66_30, // E0
    0o66_66_66_66_66_66_66_66_66_36, // ED
    0o66_66_66_66_66_66_66_66_66_44, // F0
    0o66_66_66_66_66_66_66_66_66_52, // F4
    0o66_66_66_14_66_06_14_06_00_66, // continuation, A0 to BF
    0o66_66_66_66_66_66_66_66_66_00, // other ASCII
    0o66_00_66_66_66_66_66_66_66_00, // b, f, n, r and t
];

// The state after a byte.
fn next_state(state: u64, b: u8, columns: &[u8; 256], steps: &[u64; 16]) -> u64
    requires { state < 64 }
    ensures { result ≡ look columns.now steps.now state b }
{
    let column = columns[b as usize] % 16;
    (steps[column as usize] >> state) % 64
}

// The end of the whole characters before a place, by the state there: the place itself, or the end that was found last.
fn whole_end(state: u64, at: usize, end: usize) -> usize
    ensures { result ≡ (if eqb state 0 then at else end) }
{
    if state == BETWEEN { at } else { end }
}

// The steps. Where no escapes are let through, a backslash between characters leads to the end.
fn steps(escapes: bool) -> [u64; 16]
    ensures { Steps escapes result }
{
    let mut steps = STEPS;
    if escapes {
        return steps;
    }
    steps[BACKSLASH] = 0o66_00_66_66_66_66_66_66_66_66;
    steps
}

// The state after a block. None of its bytes is tested: the end leads to itself.
fn after_block(first: u64, s: &[u8], at: usize, columns: &[u8; 256], steps: &[u64; 16]) -> u64
    requires { (first < 64) × (at + block ≤ length s.now) }
    ensures { (result < 64)
        × (result ≡ look_over columns.now steps.now block first s.now at) }
{
    let mut state = first;
    for place in at..at + BLOCK {
        state = next_state(state, s[place], columns, steps);
    }
    state
}

// An end of whole characters, by blocks: the last place between two blocks that is between characters.
fn blocks_end(s: &[u8], start: usize, columns: &[u8; 256], steps: &[u64; 16]) -> usize
    ensures { (escapes : Bool) → Tables escapes columns.now steps.now
        → Verbatim escapes s.now start result }
{
    let mut at = start;
    let mut end = start;
    let mut state = BETWEEN;
    // no `chunks_exact`: a start behind the text's end has no rest to take them from
    while at < s.len() {
        if s.len() - at < BLOCK {
            return end;
        }
        state = after_block(state, s, at, columns, steps);
        if state == END {
            return end;
        }
        at += BLOCK;
        end = whole_end(state, at, end);
    }
    end
}

// The end of the characters from a place on that are written as they stand, with or without escapes among them, by
// tables that are lent: first by blocks, and from the last end that they found byte by byte. A turn brings `end` up to
// date before its byte, and not after it: the compiler then keeps one counter of places, and not two.
fn passed_end(s: &[u8], start: usize, columns: &[u8; 256], steps: &[u64; 16]) -> usize
    ensures { (escapes : Bool) → Tables escapes columns.now steps.now
        → VerbatimTo escapes s.now start result }
{
    let mut end = blocks_end(s, start, columns, steps);
    let mut at = end;
    let mut state = BETWEEN;
    // no `for` over the rest: a start behind the text's end has none, and is the answer
    while at < s.len() {
        end = whole_end(state, at, end);
        state = next_state(state, s[at], columns, steps);
        if state == END {
            return end;
        }
        at += 1;
    }
    whole_end(state, at, end)
}

// The end of the characters from a place on that are written byte for byte as they are read, with or without escapes
// among them. The tables are constants, and are laid out on the stack wherever they are used. So they are used only
// here, and in no function that calls itself.
pub fn verbatim_end(s: &[u8], start: usize, escapes: bool) -> usize
    ensures { VerbatimTo escapes s.now start result }
{
    let columns = columns();
    let steps = steps(escapes);
    passed_end(s, start, &columns, &steps)
}
