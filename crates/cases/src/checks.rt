// Whether a buffer holds the same value everywhere.
ghost use Rattle.std.specs.Prelude.{◌≡◌, drop};
ghost use Rattle.std.specs.List.{list_all};
ghost use Rattle.cases.specs.Same.{all_clear, clear_both};

use tape::layout::Node;

// All items from `first` on are `x`.
pub fn all_from<T: PartialEq + Copy>(xs: &[T], first: usize, x: T) -> bool
    ensures { result ≡ list_all (λ y. T.PartialEq.eq y x) (drop first xs.now) }
{
    xs.iter().skip(first).all(|y| *y == x)
}

// All fields of all records are 0.
pub fn all_clear(nodes: &[Node]) -> bool
    ensures { result ≡ all_clear nodes.now }
{
    nodes.iter().all(|node| all_from(node, 0, 0))
}

// The work area of a call is all zero.
pub fn work_clear(nodes: &[Node], index: &[u16]) -> bool
    ensures { result ≡ clear_both nodes.now index.now }
{
    all_clear(nodes) && all_from(index, 0, 0)
}
