//! The names of the nodes of a line.

ghost use Rattle.std.specs.Prelude.{◌≡◌, length, IfOk};

use pdh_candidates::Word;
use pdh_following::node_name;
use pdh_health::NodeHealth;
use pdh_named_lines::level_of;
use pdh_shape::Path;
use std::alloc::{AllocError, Global};

/// A node of a line, as texts name it.
#[derive(Drop)]
pub(crate) struct NodeName {
    /// Its name, as `/2/3`.
    pub(crate) text: String,
    /// That of its level, as `E2`.
    pub(crate) level: &'static str,
}

// The name of the node at a path, and that of its level.
fn name_of(alloc: Global, word: Word, path: Path) -> Result<NodeName, AllocError> {
    let text = node_name(alloc, path)?;
    let level = level_of(word, path).name;
    Ok(NodeName { text, level })
}

/// The names of nodes, in their order; or the refusal of memory.
pub(crate) fn names_of(
    alloc: Global,
    word: Word,
    nodes: &[NodeHealth],
) -> Result<Vec<NodeName>, AllocError>
    ensures { IfOk result (λ names. length names.items ≡ length nodes.now) }
{
    let mut names = Vec::with_capacity(alloc, nodes.len())?;
    for node in nodes {
        names.push(name_of(alloc, word, node.path)?)?;
    }
    Ok(names)
}
