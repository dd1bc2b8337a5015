// The two calls of crate `intel_hex` for C, as a static library: include/json_patch_hex.h declares them.
#![tactic(auto)]

ghost use Rattle.intel_hex.specs.Call.{WritesC, ReadsC};

// As `write_hex`. The answer's fields are laid down in `answer`, in the order of the header's struct; the number is
// returned too.
#[unsafe(no_mangle)]
pub extern "C" fn json_patch_write_hex(text: &[u8], output: &mut [u8], answer: &mut [u64; 6]) -> u32
    ensures { WritesC text.now output.old output.new answer.new result }
{
    intel_hex::exports::json_patch_write_hex(text, output, answer)
}

// As `read_hex`.
#[unsafe(no_mangle)]
pub extern "C" fn json_patch_read_hex(hex: &[u8], output: &mut [u8], answer: &mut [u64; 6]) -> u32
    ensures { ReadsC hex.now output.old output.new answer.new result }
{
    intel_hex::exports::json_patch_read_hex(hex, output, answer)
}
