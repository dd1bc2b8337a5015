// What a call answers.
ghost use Rattle.std.specs.Prelude.{◌≡◌};
ghost use Rattle.intel_hex.specs.Call.{answer_of};

use crate::refusal::HexFault;

// The number is 0 where the text was written, and that of the refusal otherwise. `place` is the line of the refusal,
// and 0 where it has none. `length` is the length of the written text, and 0 after a refusal.
#[derive(Clone, Copy, Debug, PartialEq, Eq)]
pub struct Answer {
    pub number: u8,
    pub place: usize,
    pub length: usize,
}

// `Ok` has the length of the written text.
impl From<Result<usize, HexFault>> for Answer {
    ghost from_gives = { λ written answer. answer ≡ answer_of written };

    fn from(written: Result<usize, HexFault>) -> Answer {
        match written {
            Ok(length) => Answer {
                number: 0,
                place: 0,
                length,
            },
            Err(fault) => Answer {
                number: u8::from(fault.refusal),
                place: fault.line,
                length: 0,
            },
        }
    }
}
