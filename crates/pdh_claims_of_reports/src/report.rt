//! What is reported of a recorded line.

ghost use Rattle.std.specs.Prelude.{◌≡◌, ◌<◌, true, false};

use pdh_report::{NodeReport, Report, is_healthy};

/// A node that lost its alignment has something wrong.
pub fn all_nodes_are_fine(node: &NodeReport<'_>) -> bool
    requires { 0 < node.now.lost }
    ensures { result ≡ true }
{
    node.has_trouble()
}

/// A node with a frame in which an alignment bit was wrong has something wrong.
pub fn single_wrong_bits_are_no_trouble(node: &NodeReport<'_>) -> bool
    requires { 0 < node.now.bad }
    ensures { result ≡ true }
{
    node.has_trouble()
}

/// A node with a block whose check was wrong has something wrong.
pub fn wrong_checks_are_no_trouble(node: &NodeReport<'_>) -> bool
    requires { 0 < node.now.crc }
    ensures { result ≡ true }
{
    node.has_trouble()
}

/// A line whose top was never aligned isn't healthy.
pub fn line_without_alignment_is_healthy(top: NodeReport<'_>) -> bool
    requires { top.aligned ≡ 0 }
    ensures { result ≡ false }
{
    is_healthy(&[top])
}

/// A report of bits that were read from the least significant one on, and not inverted, tells that order.
pub fn order_by_the_inversion(report: &Report<'_>) -> bool
    requires least_first { report.now.lsb_first ≡ true }
    requires as_they_are { report.now.inverted ≡ false }
    ensures { result ≡ true }
{
    report.reading().lsb_first
}
