// A pointer cut at its last slash.
ghost use Rattle.std.specs.Prelude.{◌≡◌};
ghost use Rattle.undo.specs.Mend.{CutIs, shortened};

use lexer::Character;
use tape::fields::{Spelling, narrow};
use text::letter;

// Where the last slash stands, and the place behind it, where the last token begins.
#[derive(Clone, Copy, Debug, PartialEq, Eq)]
pub struct Cut {
    pub end: usize,
    pub next: usize,
}

pub fn last_slash(pointer: &[u8]) -> Cut
    ensures { CutIs pointer.now result }
{
    let mut cut = Cut { end: 0, next: 0 };
    let mut at = 0;
    while let Ok(Character { code, next }) = letter(2, pointer, at) {
        if code == 0x2F {
            cut = Cut {
                end: at,
                next: next.at,
            };
        }
        at = next.at;
    }
    cut
}

// The first bytes of what a spelling names.
pub fn shortened(path: Spelling, length: usize) -> Spelling
    ensures { result ≡ shortened path length }
{
    Spelling {
        length: narrow(length),
        ..path
    }
}
