// What an operation answers: how many rows the document has from now on, or why it fails.
ghost use Rattle.std.specs.Prelude.{◌≡◌};
ghost use Rattle.operations.specs.Answers.{numbered};

use spec::refusal::{Fault, Refusal};

// A pointer of an operation, by the number that an answer has for it.
#[derive(Clone, Copy, Debug, PartialEq, Eq)]
pub enum Pointer {
    Path = 1,
    From = 2,
}

// A refusal, its place, and the pointer that leads nowhere, if one does.
#[derive(Clone, Copy, Debug, PartialEq, Eq)]
pub struct Failure {
    pub refusal: Refusal,
    pub place: usize,
    pub pointer: Option<Pointer>,
}

// The same of a run, with the number of the operation that fails.
#[derive(Clone, Copy, Debug, PartialEq, Eq)]
pub struct Stop {
    pub refusal: Refusal,
    pub op: usize,
    pub place: usize,
    pub pointer: Option<Pointer>,
}

// No operation of a patch of the right shape fails so.
pub const MISSHAPEN: Failure = Failure {
    refusal: Refusal::WrongShape,
    place: 0,
    pointer: None,
};

impl Pointer {
    ghost use Rattle.operations.specs.Answers.{pointer_for, failure_at, told_at};

    // This pointer, where a refusal has one: a location is missing, or a token is no index.
    fn of(self, refusal: Refusal) -> Option<Pointer>
        ensures { result ≡ pointer_for self refusal }
    {
        match refusal {
            Refusal::LocationMissing | Refusal::NoIndex => Some(self),
            _ => None,
        }
    }

    // A fault at the location that this pointer names.
    fn failure(self, fault: Fault) -> Failure
        ensures { result ≡ failure_at self fault }
    {
        Failure {
            refusal: fault.refusal,
            place: fault.place,
            pointer: self.of(fault.refusal),
        }
    }

    // What became of a step at the location that this pointer names.
    pub fn told<T>(self, step: Result<T, Fault>) -> Result<T, Failure>
        ensures { result ≡ told_at self step }
    {
        step.map_err(|fault| self.failure(fault))
    }
}

impl From<Pointer> for u8 {
    ghost from_gives = { λ pointer number. number ≡ numbered pointer };

    fn from(pointer: Pointer) -> u8 {
        pointer as u8
    }
}

impl Failure {
    ghost use Rattle.operations.specs.Answers.{stop_at};

    // This failure of an operation, by its number in the run.
    pub fn stop(self, op: usize) -> Stop
        ensures { result ≡ stop_at op self }
    {
        Stop {
            refusal: self.refusal,
            op,
            place: self.place,
            pointer: self.pointer,
        }
    }
}
