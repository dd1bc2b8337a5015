// What the call answers: SPECIFICATION 2.
ghost use Rattle.std.specs.Prelude.{◌≡◌, [], ◌∷◌};
ghost use Rattle.spec.specs.Fault.{number_of};
ghost use Rattle.operations.specs.Answers.{pointed};
ghost use Rattle.json_patch.specs.Call.{SuccessIs, RefusalIs};
ghost use Rattle.json_patch.specs.Stages.{as_answer, UnreadIs, MisshapenIs, StoppedIs};

use crate::texts::Unread;
use operations::{Pointer, Stop};
use shape::Misshapen;
use spec::refusal::{Fault, Refusal};

// The number is 0 where the patch was applied, and that of the refusal otherwise. `text` is 1 for the document and 2
// for the patch, and `op` counts the operations from 1. With 11 and 12 `pointer` is 1 for `path` and 2 for `from`, and
// `place` the count of tokens walked before the one that failed; with 3 to 7 `place` is a byte offset. What a refusal
// does not set is 0, and so is `length` after a refusal. These are numbers and no enums, since C's struct has them:
// include/json_patch.h.
#[derive(Clone, Copy, Debug, PartialEq, Eq)]
pub struct Answer {
    pub number: u8,
    pub text: u8,
    pub op: usize,
    pub place: usize,
    pub pointer: u8,
    pub length: usize,
}

pub fn success(length: usize) -> Answer
    ensures { SuccessIs length result }
{
    Answer {
        number: 0,
        text: 0,
        op: 0,
        place: 0,
        pointer: 0,
        length,
    }
}

// The answer of a refusal by its number.
pub fn refused(number: u8, text: u8, op: usize, place: usize) -> Answer
    ensures { RefusalIs number text op place result }
{
    Answer {
        number,
        text,
        op,
        place,
        pointer: 0,
        length: 0,
    }
}

// The same, of a refusal of the code.
pub fn refusal_answer(refusal: Refusal, text: u8, op: usize, place: usize) -> Answer
    ensures { RefusalIs (number_of refusal) text op place result }
{
    refused(u8::from(refusal), text, op, place)
}

// The answer where the reading of a text was refused.
pub fn unread(text: u8, fault: Fault) -> Answer
    ensures { UnreadIs text fault result }
{
    refusal_answer(fault.refusal, text, 0, fault.place)
}

// The same, of the text that is refused.
impl From<Unread> for Answer {
    ghost from_gives = { λ u r. UnreadIs u.text u.fault r };

    fn from(u: Unread) -> Answer {
        unread(u.text, u.fault)
    }
}

// The answer where the shape of an operation was refused.
pub fn misshapen(wrong: Misshapen) -> Answer
    ensures { MisshapenIs wrong result }
{
    refusal_answer(wrong.refusal, 0, wrong.op, 0)
}

impl From<Misshapen> for Answer {
    ghost from_gives = { λ wrong r. MisshapenIs wrong r };

    fn from(wrong: Misshapen) -> Answer {
        misshapen(wrong)
    }
}

// The number of the pointer that leads nowhere, and 0 of none.
fn pointer_number(pointer: Option<Pointer>) -> u8
    ensures { result ≡ pointed pointer }
{
    match pointer {
        Some(Pointer::Path) => 1,
        Some(Pointer::From) => 2,
        None => 0,
    }
}

// The answer where an operation was refused.
pub fn stopped(stop: Stop) -> Answer
    ensures { StoppedIs stop result }
{
    Answer {
        number: u8::from(stop.refusal),
        text: 0,
        op: stop.op,
        place: stop.place,
        pointer: pointer_number(stop.pointer),
        length: 0,
    }
}

impl From<Stop> for Answer {
    ghost from_gives = { λ stop r. StoppedIs stop r };

    fn from(stop: Stop) -> Answer {
        stopped(stop)
    }
}

// The answer of the stages: the length of the text that was written, or a refusal.
impl From<Result<usize, Answer>> for Answer {
    ghost from_gives = { λ done r. r ≡ as_answer done };

    fn from(done: Result<usize, Answer>) -> Answer {
        match done {
            Ok(length) => success(length),
            Err(refusal) => refusal,
        }
    }
}

// The fields in the order of the struct of C: include/json_patch.h.
impl From<Answer> for [u64; 6] {
    ghost from_gives = { λ r fields. fields
        ≡ r.number ∷ r.text ∷ r.op ∷ r.place ∷ r.pointer ∷ r.length ∷ [] };

    fn from(r: Answer) -> [u64; 6] {
        [
            r.number as u64,
            r.text as u64,
            r.op as u64,
            r.place as u64,
            r.pointer as u64,
            r.length as u64,
        ]
    }
}
