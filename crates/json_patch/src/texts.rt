// The two texts read, as every call that applies a patch to a document reads them: SPECIFICATION 2.3.
ghost use Rattle.tape.specs.Lent.{lent};
ghost use Rattle.reader.specs.Work.{work_before};
ghost use Rattle.json_patch.specs.Reads.{LengthsAre, ReadTextsIs};

use reader::{read_document, read_patch};
use spec::limits;
use spec::refusal::{Fault, Refusal};
use tape::layout::{Node, Texts};

// A text that is refused, 1 for the document and 2 for the patch, and why.
#[derive(Clone, Copy, Debug, PartialEq, Eq)]
pub struct Unread {
    pub text: u8,
    pub fault: Fault,
}

// A text that is too long is refused.
pub fn check_lengths<'a>(texts: Texts<'a>) -> Result<(), Unread>
    ensures { LengthsAre (lent texts) result }
{
    if limits::MAX_BYTES < texts[0].len() {
        return Err(Unread {
            text: 1,
            fault: Refusal::InputTooLong.at(0),
        });
    }
    if limits::MAX_BYTES < texts[1].len() {
        return Err(Unread {
            text: 2,
            fault: Refusal::InputTooLong.at(0),
        });
    }
    Ok(())
}

// The whole document is read, then the whole patch: the document's number of rows, or the text that is refused.
pub fn read_texts<'a>(
    texts: Texts<'a>,
    nodes: &mut [Node],
    index: &mut [u16],
) -> Result<usize, Unread>
    ensures { ReadTextsIs (lent texts) (work_before nodes.old index.old) nodes.new result }
{
    let document = read_document(texts, nodes, index).map_err(|fault| Unread { text: 1, fault })?;
    read_patch(texts, nodes, index).map_err(|fault| Unread { text: 2, fault })?;
    Ok(document.end)
}
