//! The lines that sum up the nodes without a row.

ghost use Rattle.std.specs.Prelude.{◌<◌};

use crate::listing::Shown;
use crate::numbers::{duration, grouped};
use pdh_report::NodeReport;
use std::alloc::{AllocError, Global};

// What a line says of some nodes of a level: how many they are, the fewest and the most frames, and the most of each number.
#[derive(Clone, Copy)]
struct Group {
    nodes: u64,
    fewest: u64,
    most: u64,
    losses: u64,
    out_bits: u64,
    errored: u64,
    severe: u64,
}

impl Group {
    fn of(node: &NodeReport<'_>) -> Group {
        Group {
            nodes: 1,
            fewest: node.frames,
            most: node.frames,
            losses: node.lost,
            out_bits: node.out_bits,
            errored: node.es,
            severe: node.ses,
        }
    }

    fn with(self, other: Group) -> Group {
        Group {
            nodes: self.nodes.saturating_add(other.nodes),
            fewest: self.fewest.min(other.fewest),
            most: self.most.max(other.most),
            losses: self.losses.max(other.losses),
            out_bits: self.out_bits.max(other.out_bits),
            errored: self.errored.max(other.errored),
            severe: self.severe.max(other.severe),
        }
    }
}

// The nodes of a level that stand in the text so, if there are any.
fn group_of(nodes: &[NodeReport<'_>], shown: &[Shown], kind: Shown, level: &str) -> Option<Group> {
    let mut group: Option<Group> = None;
    for (node, own) in nodes.iter().zip(shown.iter()) {
        if *own == kind && node.level == level {
            let alone = Group::of(node);
            group = Some(group.map_or(alone, |so_far| so_far.with(alone)));
        }
    }
    group
}

// Whether one of the first nodes is of a level and stands in the text so.
fn is_among(
    nodes: &[NodeReport<'_>],
    shown: &[Shown],
    first: usize,
    kind: Shown,
    level: &str,
) -> bool {
    nodes
        .iter()
        .zip(shown.iter())
        .take(first)
        .any(|(node, own)| *own == kind && node.level == level)
}

// Appends what is said of nodes with something wrong.
fn push_more(
    alloc: Global,
    out: &mut String,
    level: &str,
    group: Group,
    rate: u64,
) -> Result<(), AllocError>
    requires { 0 < rate }
{
    let nodes = group.nodes;
    let losses = group.losses;
    let outage = duration(alloc, group.out_bits, rate)?;
    let errored = group.errored;
    let severe = group.severe;
    write!(
        out,
        "{nodes} more {level} with events, each at most: losses {losses}, out {outage}, ES {errored}, SES {severe} (--all lists them)\n"
    )
}

// Appends what is said of nodes with nothing wrong.
fn push_fine(alloc: Global, out: &mut String, level: &str, group: Group) -> Result<(), AllocError> {
    let nodes = group.nodes;
    let most = grouped(alloc, group.most)?;
    if group.fewest == group.most {
        return write!(out, "{nodes} {level} without events, {most} frames each\n");
    }
    let fewest = grouped(alloc, group.fewest)?;
    write!(
        out,
        "{nodes} {level} without events, {fewest} to {most} frames each\n"
    )
}

// Appends the line of a group.
fn push_group(
    alloc: Global,
    out: &mut String,
    kind: Shown,
    level: &str,
    group: Group,
    rate: u64,
) -> Result<(), AllocError>
    requires { 0 < rate }
{
    match kind {
        Shown::Listed => Ok(()),
        Shown::More => push_more(alloc, out, level, group, rate),
        Shown::TooShort => {
            let nodes = group.nodes;
            write!(
                out,
                "{nodes} {level} too short to tell: fewer than four frames came\n"
            )
        }
        Shown::Fine => push_fine(alloc, out, level, group),
    }
}

/// Appends a line for each level with nodes that stand in the text so, in the order of the first of them.
pub fn push_groups(
    alloc: Global,
    out: &mut String,
    nodes: &[NodeReport<'_>],
    shown: &[Shown],
    kind: Shown,
    rate: u64,
) -> Result<(), AllocError>
    requires { 0 < rate }
{
    for (index, (node, own)) in nodes.iter().zip(shown.iter()).enumerate() {
        if *own != kind || is_among(nodes, shown, index, kind, node.level) {
            continue;
        }
        if let Some(group) = group_of(nodes, shown, kind, node.level) {
            push_group(alloc, out, kind, node.level, group, rate)?;
        }
    }
    Ok(())
}
