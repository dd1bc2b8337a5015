// A line read. What is left of the text is lent: it begins with the line.
ghost use Rattle.std.specs.Prelude.{◌≡◌, ◌+◌, ◌*◌, ◌<◌, ◌≤◌, length};
ghost use Rattle.intel_hex.specs.Record.{max_text};
ghost use Rattle.intel_hex.specs.Steps.{ScanIs, EndingIs, RecordIs, FormIs, StepIs};

use crate::digits::hex_byte;
use crate::refusal::{HexFault, HexRefusal};

// The most bytes of a text.
const MAX_TEXT: usize = 65_536;

// The fields of a record of any type, the sum of its bytes modulo 256, and the length of its line.
#[derive(Clone, Copy, Debug, PartialEq, Eq)]
pub struct Record {
    pub count: usize,
    pub address: usize,
    pub kind: u8,
    pub sum: u8,
    pub width: usize,
}

// What a record is by its type, count and address.
#[derive(Clone, Copy, Debug, PartialEq, Eq)]
pub enum Form {
    Data,
    End,
}

// The sum, modulo 256, of n bytes in digits, from a place on; `None` where something is no digit.
fn scan(t: &[u8], k: usize, n: usize) -> Option<u8>
    requires { k + 2 * n ≤ length t.now }
    ensures { ScanIs n t.now k result }
{
    let mut sum = 0u8;
    for i in 0..n {
        sum = sum.wrapping_add(hex_byte(t, k + 2 * i)?);
    }
    Some(sum)
}

// How many bytes end a line at a place.
pub fn ending(t: &[u8], k: usize) -> Option<usize>
    requires { k ≤ length t.now }
    ensures { EndingIs t.now k result }
{
    match &t[k..] {
        [] => Some(0),
        [b'\n', ..] => Some(1),
        [b'\r', b'\n', ..] => Some(2),
        _ => None,
    }
}

// The record with which a text begins.
fn record_at(t: &[u8]) -> Option<Record>
    ensures { RecordIs t.now result }
{
    if t.len() < 11 || t[0] != b':' {
        return None;
    }
    let count = usize::from(hex_byte(t, 1)?);
    let end = 2 * count + 11;
    if t.len() < end {
        return None;
    }
    let width = end + ending(t, end)?;
    let sum = scan(t, 1, count + 5)?;
    let high = hex_byte(t, 3)?;
    let low = hex_byte(t, 5)?;
    let kind = hex_byte(t, 7)?;
    Some(Record {
        count,
        address: usize::from(high) * 256 + usize::from(low),
        kind,
        sum,
        width,
    })
}

impl Record {
    // `None` for a record of another type, and for one of these two that breaks the rules for it.
    fn form(&self) -> Option<Form>
        ensures { FormIs self.now result }
    {
        match self.kind {
            0 if self.count != 0 => Some(Form::Data),
            1 if self.count == 0 && self.address == 0 => Some(Form::End),
            _ => None,
        }
    }
}

// The line with which a text begins, given its number and the next address: its record where that has data, or `None`
// at the end of all.
pub fn step_at(t: &[u8], line: usize, next: usize) -> Result<Option<Record>, HexFault>
    requires { (line + 1 < 0x1_0000_0000_0000_0000) × (next ≤ max_text) }
    ensures { StepIs t.now line next result }
{
    let record = record_at(t).ok_or(HexRefusal::NotARecord.at(line))?;
    let form = record.form().ok_or(HexRefusal::NotARecord.at(line))?;
    if record.sum != 0 {
        return Err(HexRefusal::WrongSum.at(line));
    }
    match form {
        Form::End => {
            if record.width < t.len() {
                return Err(HexRefusal::WrongEnd.at(line + 1));
            }
            Ok(None)
        }
        Form::Data => {
            if record.address != next || MAX_TEXT < next + record.count {
                return Err(HexRefusal::WrongAddress.at(line));
            }
            Ok(Some(record))
        }
    }
}
