// The two calls for C: include/json_patch_hex.h declares them.
ghost use Rattle.intel_hex.specs.Call.{WritesC, ReadsC};

use crate::calls::{read_hex, write_hex};

// As `write_hex`. The answer's fields are laid down in `answer`, in the order of the header's struct; the number is
// returned too.
pub fn json_patch_write_hex(text: &[u8], output: &mut [u8], answer: &mut [u64; 6]) -> u32
    ensures { WritesC text.now output.old output.new answer.new result }
{
    let r = write_hex(text, output);
    *answer = [
        u64::from(r.number),
        0,
        0,
        r.place as u64,
        0,
        r.length as u64,
    ];
    u32::from(r.number)
}

// As `read_hex`.
pub fn json_patch_read_hex(hex: &[u8], output: &mut [u8], answer: &mut [u64; 6]) -> u32
    ensures { ReadsC hex.now output.old output.new answer.new result }
{
    let r = read_hex(hex, output);
    *answer = [
        u64::from(r.number),
        0,
        0,
        r.place as u64,
        0,
        r.length as u64,
    ];
    u32::from(r.number)
}
