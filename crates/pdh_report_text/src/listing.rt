//! Which nodes a table lists.

ghost use Rattle.std.specs.Prelude.{◌≡◌, ◌<◌, IfOk, length};

use pdh_report::NodeReport;
use std::alloc::{AllocError, Global};

// How many nodes with something wrong are listed at most.
const MOST_LISTED: usize = 20;

/// Where a node stands in the text.
#[derive(Clone, Copy, Debug, PartialEq, Eq)]
pub enum Shown {
    /// In a row of its own.
    Listed,
    /// Among those with something wrong that have no row.
    More,
    /// Among those to which too few bits came.
    TooShort,
    /// Among those with nothing wrong.
    Fine,
}

// Whether a node is worse than another: by its unavailable, severely errored and errored seconds, its losses, and its time out
// of alignment.
fn is_worse(node: &NodeReport<'_>, other: &NodeReport<'_>) -> bool {
    let own = [
        node.uas.unwrap_or(0),
        node.ses,
        node.es,
        node.lost,
        node.out_bits,
    ];
    let others = [
        other.uas.unwrap_or(0),
        other.ses,
        other.es,
        other.lost,
        other.out_bits,
    ];
    own > others
}

// How many nodes with something wrong come before this one, the worst first and else in the order of paths.
fn worse_ones(nodes: &[NodeReport<'_>], index: usize) -> usize
    requires { index < length nodes.now }
{
    let own = &nodes[index];
    nodes
        .iter()
        .enumerate()
        .filter(|(other, node)| {
            let comes_first = is_worse(node, own) || (*other < index && !is_worse(own, node));
            node.has_trouble() && comes_first
        })
        .count()
}

// Where the node of a number stands in the text; the top is always listed.
fn shown_as(nodes: &[NodeReport<'_>], index: usize, all: bool) -> Shown
    requires { index < length nodes.now }
{
    if all || index == 0 {
        return Shown::Listed;
    }
    if !nodes[index].has_trouble() {
        if nodes[index].too_short {
            return Shown::TooShort;
        }
        return Shown::Fine;
    }
    if worse_ones(nodes, index) < MOST_LISTED {
        Shown::Listed
    } else {
        Shown::More
    }
}

/// Where each of some nodes stands in the text, in their order; or the refusal of memory.
pub fn listing(alloc: Global, nodes: &[NodeReport<'_>], all: bool) -> Result<Vec<Shown>, AllocError>
    ensures { IfOk result (λ shown. length shown.items ≡ length nodes.now) }
{
    let mut shown = Vec::new(alloc);
    for index in 0..nodes.len() {
        shown.push(shown_as(nodes, index, all))?;
    }
    Ok(shown)
}
