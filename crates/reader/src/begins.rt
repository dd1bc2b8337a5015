// A value by its first byte: which kind it is, and whether it may begin there.
ghost use Rattle.std.specs.Prelude.{◌≡◌, ◌-◌, ◌≤◌};
ghost use Rattle.spec.specs.Read.{room_for};
ghost use Rattle.spec.specs.Fault.{outcome, outcome_by};
ghost use Rattle.reader.specs.Begins.{beginning, kind_at, container_room};

use lexer::{Cursor, peek};
use spec::limits;
use spec::refusal::{Fault, Refusal};
use tape::layout;

// The kind of the value that begins with a byte, if one does.
#[tactic(auto, using(lexer::proofs::Auto::auto), unfolding(crate::specs::Begins::beginning, spec::specs::Numbers::is_digit, spec::specs::Bytes::within))]
fn beginning(b: u8) -> Option<u16>
    ensures { result ≡ beginning b }
{
    match b {
        b'[' => Some(layout::ARRAY),
        b'{' => Some(layout::OBJECT),
        b'"' => Some(layout::STRING),
        b'-' | b'0'..=b'9' => Some(layout::NUMBER),
        b'n' => Some(layout::NULL),
        b't' => Some(layout::TRUE),
        b'f' => Some(layout::FALSE),
        _ => None,
    }
}

// The kind of the value that begins at a cursor.
#[tactic(auto, using(lexer::proofs::Auto::auto), unfolding(crate::specs::Begins::kind_at, crate::specs::Begins::kind_or_refused, spec::specs::Fault::outcome_by, spec::specs::Fault::number_of))]
pub fn kind_at(s: &[u8], at: Cursor) -> Result<u16, Fault>
    ensures { outcome result ≡ kind_at s.now at.at }
{
    let Some(kind) = beginning(peek(s, at.at)) else {
        return Err(Refusal::NotJson.at(at.at));
    };
    Ok(kind)
}

// Whether there is room for the value at a cursor. It is to begin in `row`; the text's rows begin at `base`.
#[tactic(auto, using(lexer::proofs::Auto::auto), unfolding(spec::specs::Read::room_for, spec::specs::Fault::outcome_by, spec::specs::Fault::number_of))]
pub fn room_for(base: usize, row: usize, at: Cursor) -> Result<(), Fault>
    requires { base ≤ row }
    ensures { outcome_by (λ _. at.at) result ≡ room_for (row - base) at.at }
{
    if row - base < limits::MAX_NODES {
        return Ok(());
    }
    Err(Refusal::TooManyNodes.at(at.at))
}

// The same for a container, with `levels` levels left. On one byte the order is 5, 6.
#[tactic(auto, using(lexer::proofs::Auto::auto), unfolding(crate::specs::Begins::container_room, spec::specs::Fault::outcome_by, spec::specs::Fault::number_of))]
pub fn container_room(levels: u32, base: usize, row: usize, at: Cursor) -> Result<(), Fault>
    requires { base ≤ row }
    ensures { outcome_by (λ _. at.at) result ≡ container_room levels (row - base) at.at }
{
    if levels == 0 {
        return Err(Refusal::TooDeep.at(at.at));
    }
    room_for(base, row, at)
}
