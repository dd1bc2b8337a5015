// A pointer's token as a name.
ghost use Rattle.std.specs.Prelude.{◌≡◌};
ghost use Rattle.tape.specs.Lent.{lent};
ghost use Rattle.walk.specs.Names.{no_name, source_of, TokenNameIs};

use pointer::{Token, token_part};
use table::find::short;
use table::spellings::part;
use tape::fields::{Name, Spelling, long, narrow, wide};
use tape::layout;
use tape::layout::Texts;
use text::hash_text;

// The name without a text, as an array's elements have it.
pub fn no_name() -> Name
    ensures { result ≡ no_name }
{
    Name {
        text: Spelling {
            form: layout::NO_TEXT,
            source: layout::IN_DOCUMENT,
            start: 0,
            length: 0,
        },
        hash: 0,
    }
}

// Which text a spelling names, as a node's tags say it.
fn source_of(spelling: Spelling) -> u16
    ensures { result ≡ source_of spelling }
{
    if spelling.source == layout::IN_DOCUMENT {
        return layout::IN_DOCUMENT;
    }
    layout::IN_PATCH
}

// The name of the token that begins at a place of the pointer that `path` spells. Behind the pointer's end,
// where no token begins, it is the name without a text.
pub fn token_name<'a>(texts: Texts<'a>, path: Spelling, at: usize, token: Token) -> Name
    ensures { TokenNameIs (lent texts) path at token result }
{
    let pointer = part(texts, path);
    if pointer.len() < at {
        return no_name();
    }
    let bytes = token_part(pointer, at, token);
    Name {
        text: Spelling {
            form: layout::TOKEN,
            source: source_of(path),
            start: narrow(wide(path.start) + at),
            length: narrow(bytes.len()),
        },
        hash: short(hash_text(long(layout::TOKEN), bytes)),
    }
}
