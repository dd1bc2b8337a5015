// Why a call is refused. A refusal's number is that of the answer; specs/Fault.antt has the same.
ghost use Rattle.std.specs.Prelude.{◌≡◌};
ghost use Rattle.spec.specs.Fault.{number_of};

#[derive(Clone, Copy, Debug, PartialEq, Eq)]
pub enum Refusal {
    WorkTooShort = 1,
    InputTooLong = 2,
    NotJson = 3,
    RepeatedName = 4,
    TooDeep = 5,
    TooManyNodes = 6,
    NumberOverLimit = 7,
    WrongShape = 8,
    TooManyOperations = 9,
    MalformedPointer = 10,
    LocationMissing = 11,
    NoIndex = 12,
    RemoveOfRoot = 13,
    MoveIntoChild = 14,
    TestDiffers = 15,
    OutputTooShort = 16,
    NotPermitted = 17,
}

// A refusal, and its place: a byte offset in a text that is read, the count of tokens walked along a pointer that leads
// nowhere, and 0 where the refusal has no place.
#[derive(Clone, Copy, Debug, PartialEq, Eq)]
pub struct Fault {
    pub refusal: Refusal,
    pub place: usize,
}

impl Refusal {
    // This refusal at a place.
    pub fn at(self, place: usize) -> Fault
        ensures { result ≡ record { refusal = self; place = place } }
    {
        Fault {
            refusal: self,
            place,
        }
    }
}

impl From<Refusal> for u8 {
    ghost from_gives = { λ refusal number. number ≡ number_of refusal };

    fn from(refusal: Refusal) -> u8 {
        refusal as u8
    }
}
