// Why a call is refused.
ghost use Rattle.std.specs.Prelude.{◌≡◌};
ghost use Rattle.intel_hex.specs.Refusal.{number_of};

// The discriminants are the numbers of docs/REFUSALS.md.
#[derive(Clone, Copy, Debug, PartialEq, Eq)]
pub enum HexRefusal {
    InputTooLong = 2,
    OutputTooShort = 16,
    NotARecord = 18,
    WrongSum = 19,
    WrongAddress = 20,
    WrongEnd = 21,
}

// A refusal, and the line that it is about, from 1; 0 where it is about none.
#[derive(Clone, Copy, Debug, PartialEq, Eq)]
pub struct HexFault {
    pub refusal: HexRefusal,
    pub line: usize,
}

impl HexRefusal {
    pub fn at(self, line: usize) -> HexFault
        ensures { result ≡ record { refusal = self; line = line } }
    {
        HexFault {
            refusal: self,
            line,
        }
    }
}

impl From<HexRefusal> for u8 {
    ghost from_gives = { λ refusal number. number ≡ number_of refusal };

    fn from(refusal: HexRefusal) -> u8 {
        refusal as u8
    }
}
