// What the call answers.
ghost use Rattle.std.specs.Prelude.{◌≡◌, [], ◌∷◌};
ghost use Rattle.undo.specs.Call.{as_undo_answer};
ghost use Rattle.undo.specs.Stages.{WithoutIs};

use json_patch::{Answer, success};

// As the plain call, and the undo's length: 0 after a refusal.
#[derive(Clone, Copy, Debug, PartialEq, Eq)]
pub struct UndoAnswer {
    pub answer: Answer,
    pub undo: usize,
}

// The lengths of the two texts that the stages have written.
#[derive(Clone, Copy, Debug, PartialEq, Eq)]
pub struct Written {
    pub document: usize,
    pub undo: usize,
}

// A refusal.
pub fn without(answer: Answer) -> UndoAnswer
    ensures { WithoutIs answer result }
{
    UndoAnswer { answer, undo: 0 }
}

// The answer of the stages: both lengths, or a refusal.
impl From<Result<Written, Answer>> for UndoAnswer {
    ghost from_gives = { λ done r. r ≡ as_undo_answer done };

    fn from(done: Result<Written, Answer>) -> UndoAnswer {
        match done {
            Ok(written) => UndoAnswer {
                answer: success(written.document),
                undo: written.undo,
            },
            Err(refusal) => without(refusal),
        }
    }
}

// The fields in the order of the struct of C: include/json_patch.h.
impl From<UndoAnswer> for [u64; 7] {
    ghost from_gives = { λ r fields. fields ≡ r.answer.number ∷ r.answer.text ∷ r.answer.op
        ∷ r.answer.place ∷ r.answer.pointer ∷ r.answer.length ∷ r.undo ∷ [] };

    fn from(r: UndoAnswer) -> [u64; 7] {
        let [number, text, op, place, pointer, length]: [u64; 6] = r.answer.into();
        [number, text, op, place, pointer, length, r.undo as u64]
    }
}
