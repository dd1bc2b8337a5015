// What the call answers.
ghost use Rattle.std.specs.Prelude.{◌≡◌, [], ◌∷◌};
ghost use Rattle.spec.specs.Fault.{number_of};
ghost use Rattle.inspect.specs.Call.{told, AcceptedIs, RefusalIs};
ghost use Rattle.inspect.specs.Stages.{told_of, UnreadIs, MisshapenIs};

use crate::counts::{Counts, NONE};
use shape::Misshapen;
use spec::refusal::{Fault, Refusal};

// The number is 0 where the patch is well formed, and that of the refusal otherwise. `text` is 2 for a refusal of the
// patch's text, `op` counts the operations from 1, and `place` is a byte offset. What a refusal does not set is 0,
// and so are all counts after a refusal.
#[derive(Clone, Copy, Debug, PartialEq, Eq)]
pub struct Answer {
    pub number: u8,
    pub text: u8,
    pub op: usize,
    pub place: usize,
    pub counts: Counts,
}

pub fn accepted(counts: Counts) -> Answer
    ensures { AcceptedIs counts result }
{
    Answer {
        number: 0,
        text: 0,
        op: 0,
        place: 0,
        counts,
    }
}

pub fn refused(refusal: Refusal, text: u8, op: usize, place: usize) -> Answer
    ensures { RefusalIs (number_of refusal) text op place result }
{
    Answer {
        number: u8::from(refusal),
        text,
        op,
        place,
        counts: NONE,
    }
}

// The answer where the reading of the patch was refused.
impl From<Fault> for Answer {
    ghost from_gives = { λ fault r. UnreadIs fault r };

    fn from(fault: Fault) -> Answer {
        refused(fault.refusal, 2, 0, fault.place)
    }
}

// The answer where the shape of an operation was refused.
impl From<Misshapen> for Answer {
    ghost from_gives = { λ wrong r. MisshapenIs wrong r };

    fn from(wrong: Misshapen) -> Answer {
        refused(wrong.refusal, 0, wrong.op, 0)
    }
}

// The answer of the stages: the counts, or a refusal.
impl From<Result<Counts, Answer>> for Answer {
    ghost from_gives = { λ done r. told r ≡ told_of done };

    fn from(done: Result<Counts, Answer>) -> Answer {
        match done {
            Ok(counts) => accepted(counts),
            Err(refusal) => refusal,
        }
    }
}

// The fields in the order of the struct of C: include/json_patch_inspect.h.
impl From<Answer> for [u64; 10] {
    ghost from_gives = { λ r fields. fields
        ≡ r.number ∷ r.text ∷ r.op ∷ r.place ∷ r.counts.adds ∷ r.counts.removes ∷ r.counts.replaces
        ∷ r.counts.moves ∷ r.counts.copies ∷ r.counts.tests ∷ [] };

    fn from(r: Answer) -> [u64; 10] {
        let c = r.counts;
        [
            r.number as u64,
            r.text as u64,
            r.op as u64,
            r.place as u64,
            c.adds as u64,
            c.removes as u64,
            c.replaces as u64,
            c.moves as u64,
            c.copies as u64,
            c.tests as u64,
        ]
    }
}
