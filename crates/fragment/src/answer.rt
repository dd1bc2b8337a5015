// What a call answers.
ghost use Rattle.std.specs.Prelude.{◌≡◌};
ghost use Rattle.fragment.specs.Call.{SuccessIs, RefusalIs, answer_of};

use crate::refusal::LinkRefusal;

// The number is 0 where the text was written, and that of the refusal otherwise. `length` is the length of the written
// text, and 0 after a refusal.
#[derive(Clone, Copy, Debug, PartialEq, Eq)]
pub struct Answer {
    pub number: u8,
    pub length: usize,
}

pub fn success(length: usize) -> Answer
    ensures { SuccessIs length result }
{
    Answer { number: 0, length }
}

pub fn refusal(number: u8) -> Answer
    ensures { RefusalIs number result }
{
    Answer { number, length: 0 }
}

// `Ok` has the length of the written text.
impl From<Result<usize, LinkRefusal>> for Answer {
    ghost from_gives = { λ written answer. answer ≡ answer_of written };

    fn from(written: Result<usize, LinkRefusal>) -> Answer {
        match written {
            Ok(length) => success(length),
            Err(reason) => refusal(u8::from(reason)),
        }
    }
}
