// What the call answers.
ghost use Rattle.std.specs.Prelude.{◌≡◌, [], ◌∷◌};
ghost use Rattle.spec.specs.Fault.{number_of};
ghost use Rattle.compare.specs.Call.{told, bit, SuccessIs, RefusalIs};
ghost use Rattle.compare.specs.Stages.{told_of, UnreadIs};

use counting::Comparison;
use json_patch::Unread;
use spec::refusal::Refusal;

// The number is 0 where both texts were read, and that of the refusal otherwise. `text` is 1 or 2 for a refusal of
// that text, and `place` a byte offset in it; what a refusal does not set is 0. `equal` says whether the values are
// equal, and `names` how many names were compared; after a refusal they are false and 0.
#[derive(Clone, Copy, Debug, PartialEq, Eq)]
pub struct Answer {
    pub number: u8,
    pub text: u8,
    pub place: usize,
    pub equal: bool,
    pub names: u64,
}

pub fn success(comparison: Comparison) -> Answer
    ensures { SuccessIs comparison result }
{
    Answer {
        number: 0,
        text: 0,
        place: 0,
        equal: comparison.same,
        names: comparison.names,
    }
}

pub fn refused(refusal: Refusal, text: u8, place: usize) -> Answer
    ensures { RefusalIs (number_of refusal) text place result }
{
    Answer {
        number: u8::from(refusal),
        text,
        place,
        equal: false,
        names: 0,
    }
}

// The answer where a text was refused.
impl From<Unread> for Answer {
    ghost from_gives = { λ u r. UnreadIs u r };

    fn from(u: Unread) -> Answer {
        refused(u.fault.refusal, u.text, u.fault.place)
    }
}

// The answer of the stages: what the comparison told, or a refusal.
impl From<Result<Comparison, Answer>> for Answer {
    ghost from_gives = { λ done r. told r ≡ told_of done };

    fn from(done: Result<Comparison, Answer>) -> Answer {
        match done {
            Ok(comparison) => success(comparison),
            Err(refusal) => refusal,
        }
    }
}

// The fields in the order of the struct of C, `equal` as 1 or 0: include/json_patch_compare.h.
impl From<Answer> for [u64; 5] {
    ghost from_gives = { λ r fields. fields
        ≡ r.number ∷ r.text ∷ r.place ∷ bit r.equal ∷ r.names ∷ [] };

    fn from(r: Answer) -> [u64; 5] {
        [
            r.number as u64,
            r.text as u64,
            r.place as u64,
            u64::from(r.equal),
            r.names,
        ]
    }
}
