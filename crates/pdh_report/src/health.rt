//! How healthy a line is.

ghost use Rattle.std.specs.Prelude.{◌≡◌, count_by};
ghost use Rattle.pdh_report.specs.Troubles.{has_trouble, is_healthy};

use crate::NodeReport;

/// How many of some nodes have something wrong.
pub fn troubled(nodes: &[NodeReport<'_>]) -> usize
    ensures { result ≡ count_by has_trouble nodes.now }
{
    nodes.iter().filter(|node| node.has_trouble()).count()
}

/// Whether a line with these nodes, of which the first is the top, is healthy: its top was aligned, and no node has something
/// wrong.
pub fn is_healthy(nodes: &[NodeReport<'_>]) -> bool
    ensures { result ≡ is_healthy nodes.now }
{
    match nodes {
        [] => false,
        [top, ..] => top.aligned > 0 && troubled(nodes) == 0,
    }
}
