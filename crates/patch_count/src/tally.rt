// The sums over the files that were visited.
ghost use Rattle.std.specs.Prelude.{◌≡◌, ◌+◌, ◌≤◌, ◌<◌};
ghost use Rattle.spec.specs.Limits.{max_operations};
ghost use Rattle.inspection.specs.Inspection.{plus, total, no_counts};
ghost use Rattle.inspection.specs.Tally.{no_tally, one, inspected};
ghost use Rattle.inspect.specs.Counts.{counts_in};
ghost use Rattle.inspect.specs.Call.{told};
ghost use Rattle.patch_count.specs.Sums.{tally_in, Room, Adds};

use inspect::{Answer, Counts};

#[derive(Clone, Copy)]
pub struct Tally {
    pub patches: usize,
    pub refused: usize,
    pub counts: Counts,
}

// No file.
pub fn nothing() -> Tally
    ensures { tally_in result ≡ no_tally }
{
    let counts = Counts {
        adds: 0,
        removes: 0,
        replaces: 0,
        moves: 0,
        copies: 0,
        tests: 0,
    };
    Tally {
        patches: 0,
        refused: 0,
        counts,
    }
}

fn sums(c: Counts, d: Counts) -> Counts
    requires { total (counts_in c) + total (counts_in d) < 0x1_0000_0000_0000_0000 }
    ensures { counts_in result ≡ plus (counts_in c) (counts_in d) }
{
    Counts {
        adds: c.adds + d.adds,
        removes: c.removes + d.removes,
        replaces: c.replaces + d.replaces,
        moves: c.moves + d.moves,
        copies: c.copies + d.copies,
        tests: c.tests + d.tests,
    }
}

// One more file, refused or unreadable.
pub fn one_refused(t: Tally) -> Tally
    requires { Room t }
    ensures { Adds (record { patches = 1; refused = 1; counts = no_counts }) t result }
{
    let counts = t.counts;
    Tally {
        patches: t.patches + 1,
        refused: t.refused + 1,
        counts,
    }
}

// One more file, with these operations.
pub fn one_accepted(t: Tally, c: Counts) -> Tally
    requires room { Room t }
    requires c_bound { total (counts_in c) ≤ max_operations }
    ensures { Adds (record { patches = 1; refused = 0; counts = counts_in c }) t result }
{
    let before = t.counts;
    let counts = sums(before, c);
    Tally {
        patches: t.patches + 1,
        refused: t.refused,
        counts,
    }
}

// One more file, by what its patch came to.
pub fn one_inspected(t: Tally, answer: Answer) -> Tally
    requires room { Room t }
    requires counts_bound { total (counts_in answer.counts) ≤ max_operations }
    ensures { Adds (one (inspected (told answer))) t result }
{
    if answer.number != 0 {
        return one_refused(t);
    }
    let counts = answer.counts;
    one_accepted(t, counts)
}
