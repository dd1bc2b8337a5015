// The two calls of crate `fragment` for C, as a static library: include/json_patch_link.h declares them.
#![tactic(auto)]

ghost use Rattle.fragment.specs.Call.{WriteExportIs, ReadExportIs};

// As `write_link`. The answer's fields are laid down in `answer`, in the order of the header's struct; the number is
// returned too.
#[unsafe(no_mangle)]
pub extern "C" fn json_patch_write_link(
    pointer: &[u8],
    output: &mut [u8],
    answer: &mut [u64; 6],
) -> u32
    ensures { WriteExportIs pointer.now output.old output.new
        answer.new result }
{
    fragment::exports::json_patch_write_link(pointer, output, answer)
}

// As `read_link`.
#[unsafe(no_mangle)]
pub extern "C" fn json_patch_read_link(link: &[u8], output: &mut [u8], answer: &mut [u64; 6]) -> u32
    ensures { ReadExportIs link.now output.old output.new
        answer.new result }
{
    fragment::exports::json_patch_read_link(link, output, answer)
}
