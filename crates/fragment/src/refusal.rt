// Why a call is refused.
ghost use Rattle.std.specs.Prelude.{◌≡◌};
ghost use Rattle.fragment.specs.Refusal.{number_of, refusal_for};

use crate::scan::NotPointer;

// The discriminants are the numbers of docs/REFUSALS.md.
#[derive(Clone, Copy, Debug, PartialEq, Eq)]
pub enum LinkRefusal {
    InputTooLong = 2,
    MalformedPointer = 10,
    OutputTooShort = 16,
    BadLink = 22,
}

impl From<LinkRefusal> for u8 {
    ghost from_gives = { λ refusal number. number ≡ number_of refusal };

    fn from(refusal: LinkRefusal) -> u8 {
        refusal as u8
    }
}

// Of the octets of a link.
impl From<NotPointer> for LinkRefusal {
    ghost from_gives = { λ reason refusal. refusal ≡ refusal_for reason };

    fn from(reason: NotPointer) -> LinkRefusal {
        match reason {
            NotPointer::NotUtf8 => LinkRefusal::BadLink,
            NotPointer::Malformed => LinkRefusal::MalformedPointer,
        }
    }
}
