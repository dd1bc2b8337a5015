// Two values of the node table, compared as `equality` compares them, with the count of names.
ghost use Rattle.std.specs.Prelude.{◌≡◌};
ghost use Rattle.tape.specs.Lent.{before};
ghost use Rattle.equality.specs.Compare.{Hints};
ghost use Rattle.counting.specs.Values.{names_for, AlikeIs, CountedIs};

use crate::places::place_of;
use equality::{Pair, partner, same_label};
use std::num::wrapping_add_u64;
use tape::layout;
use tape::layout::{Node, Texts};
use tape::nodes::{arity, end_of, kind};

// Whether two values are equal, and how many names were compared to tell.
#[derive(Clone, Copy)]
pub struct Comparison {
    pub same: bool,
    pub names: u64,
}

// How many names are compared until the one in the row `found` matches.
fn names_for(nodes: &[Node], object: bool, found: usize) -> u64
    ensures { result ≡ names_for object nodes.now found }
{
    if object {
        return place_of(nodes, found) as u64;
    }
    0
}

// Whether the values in the rows `at` and `other` have the same label and equally many children. T-10: "Unequal member
// counts or array lengths differ without a comparison": so these are counted first.
fn alike<'a>(texts: Texts<'a>, nodes: &[Node], at: usize, other: usize) -> bool
    ensures { AlikeIs (before texts nodes.now) at other result }
{
    if nodes.len() <= at {
        return false;
    }
    if nodes.len() <= other {
        return false;
    }
    if !same_label(texts, nodes[at], nodes[other]) {
        return false;
    }
    arity(nodes, at) == arity(nodes, other)
}

// The values in the rows `at` and `other`, compared. The first nests at most `levels` containers, no object of the
// second has two members of one name, and the places below the second are noted. `top` is the row of an indexed tree
// that the second is part of, or 0. Where no level is left there is no container, so alike values are equal.
pub fn counted<'a>(
    texts: Texts<'a>,
    nodes: &[Node],
    index: &[u16],
    top: usize,
    at: usize,
    other: usize,
    levels: u32,
) -> Comparison
    ensures { Hints nodes.now index.now top
        → CountedIs (before texts nodes.now) at other levels result }
{
    if !alike(texts, nodes, at, other) {
        return Comparison {
            same: false,
            names: 0,
        };
    }
    if levels == 0 {
        return Comparison {
            same: true,
            names: 0,
        };
    }
    let end = end_of(nodes, at);
    let pair = Pair {
        top,
        object: kind(nodes, at) == layout::OBJECT,
        other,
        end: end_of(nodes, other),
    };
    let mut row = at + 1;
    let mut next = other + 1;
    let mut names: u64 = 0;
    while row < end {
        let Some(found) = partner(texts, nodes, index, pair, row, next) else {
            return Comparison {
                same: false,
                names: wrapping_add_u64(names, arity(nodes, other) as u64),
            };
        };
        names = wrapping_add_u64(names, names_for(nodes, pair.object, found));
        let values = counted(texts, nodes, index, top, row, found, levels - 1);
        names = wrapping_add_u64(names, values.names);
        if !values.same {
            return Comparison { same: false, names };
        }
        row = end_of(nodes, row);
        next = end_of(nodes, next);
    }
    Comparison { same: true, names }
}
