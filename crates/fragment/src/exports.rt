// The two calls for C: include/json_patch_link.h declares them.
ghost use Rattle.fragment.specs.Call.{WriteExportIs, ReadExportIs};

use crate::calls::{read_link, write_link};

// As `write_link`. The answer's fields are laid down in `answer`, in the order of the header's struct; the number is
// returned too.
pub fn json_patch_write_link(pointer: &[u8], output: &mut [u8], answer: &mut [u64; 6]) -> u32
    ensures { WriteExportIs pointer.now output.old output.new
        answer.new result }
{
    let r = write_link(pointer, output);
    *answer = [u64::from(r.number), 0, 0, 0, 0, r.length as u64];
    u32::from(r.number)
}

// As `read_link`.
pub fn json_patch_read_link(link: &[u8], output: &mut [u8], answer: &mut [u64; 6]) -> u32
    ensures { ReadExportIs link.now output.old output.new
        answer.new result }
{
    let r = read_link(link, output);
    *answer = [u64::from(r.number), 0, 0, 0, 0, r.length as u64];
    u32::from(r.number)
}
