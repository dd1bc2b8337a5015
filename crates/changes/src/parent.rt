// A node whose children change.
ghost use Rattle.std.specs.Prelude.{◌≡◌, ◌≤◌, ◌<◌};
ghost use Rattle.spec.specs.Limits.{max_depth, max_nodes};

use spec::limits;
use spec::refusal::{Fault, Refusal};

// The document's rows, the node's own row, and how many containers a child may nest. The node is among the document's
// rows, of which there are no more than there may be, and is no deeper than it may be.
#[derive(Clone, Copy)]
pub struct Parent {
    pub used: usize,
    pub row: usize,
    pub below: u32,
    ghost low: { (used ≤ max_nodes) × (row < used) × (below < max_depth) },
}

impl Parent {
    ghost use Rattle.changes.specs.Rows.{walked_to, told_at};

    // How many tokens lead from the document to the parent. With each token, a child may nest one container fewer.
    pub fn walked(self) -> usize
        ensures { result ≡ walked_to self }
    {
        (limits::MAX_DEPTH - 1 - self.below) as usize
    }

    // What was looked for among the parent's children. A refusal gets its place.
    pub fn told(self, sought: Result<usize, Refusal>) -> Result<usize, Fault>
        ensures { result ≡ told_at (walked_to self) sought }
    {
        sought.map_err(|refusal| refusal.at(self.walked()))
    }
}
