// A run of characters that are written byte for byte as they are read.
ghost use Rattle.text.specs.Runs.{Run};

use lexer::verbatim_end;

// The end of a run from a place on.
pub fn run_end(s: &[u8], start: usize) -> usize
    ensures { Run s.now start result }
{
    verbatim_end(s, start, true)
}
