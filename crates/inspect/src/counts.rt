// How many there are of each of the six operations.
ghost use Rattle.std.specs.Prelude.{◌+◌, ◌<◌};
ghost use Rattle.inspection.specs.Inspection.{total};
ghost use Rattle.inspect.specs.Counts.{counts_in, OneIs, PlusIs};

use shape::Kind;

#[derive(Clone, Copy, Debug, PartialEq, Eq)]
pub struct Counts {
    pub adds: usize,
    pub removes: usize,
    pub replaces: usize,
    pub moves: usize,
    pub copies: usize,
    pub tests: usize,
}

pub const NONE: Counts = Counts {
    adds: 0,
    removes: 0,
    replaces: 0,
    moves: 0,
    copies: 0,
    tests: 0,
};

// One operation of a kind. One of no known kind counts for nothing.
pub fn one(kind: Option<Kind>) -> Counts
    ensures { OneIs kind result }
{
    match kind {
        Some(Kind::Add) => Counts { adds: 1, ..NONE },
        Some(Kind::Remove) => Counts { removes: 1, ..NONE },
        Some(Kind::Replace) => Counts {
            replaces: 1,
            ..NONE
        },
        Some(Kind::Move) => Counts { moves: 1, ..NONE },
        Some(Kind::Copy) => Counts { copies: 1, ..NONE },
        Some(Kind::Test) => Counts { tests: 1, ..NONE },
        None => NONE,
    }
}

// The sums, which must not wrap. The trait Add takes no `requires`, so this is no `+`.
pub fn plus(c: Counts, d: Counts) -> Counts
    requires { total (counts_in c) + total (counts_in d) < 0x1_0000_0000_0000_0000 }
    ensures { PlusIs c d result }
{
    Counts {
        adds: c.adds + d.adds,
        removes: c.removes + d.removes,
        replaces: c.replaces + d.replaces,
        moves: c.moves + d.moves,
        copies: c.copies + d.copies,
        tests: c.tests + d.tests,
    }
}
