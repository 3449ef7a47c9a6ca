//! The names of nodes and of kinds of events in texts.

ghost use Rattle.std.specs.Prelude.{◌≡◌, IfOk, string_bytes};
ghost use Rattle.pdh_line.specs.Paths.{steps_of, path_text};
ghost use Rattle.pdh_following.specs.Rows.{name_of_kind};

use bitflags::Flags;
use pdh_shape::Path;
use pdh_watch::Kind;
use std::alloc::{AllocError, Global};

/// The name of a node, as `/2/3`; or the refusal of memory.
pub fn node_name(alloc: Global, path: Path) -> Result<String, AllocError>
    ensures { IfOk result (λ text. string_bytes text ≡ path_text (steps_of path)) }
{
    let first = path.first;
    let second = path.second;
    match path.depth {
        0 => format!(in alloc; "/"),
        1 => format!(in alloc; "/{first}"),
        _ => format!(in alloc; "/{first}/{second}"),
    }
}

/// The name of a kind of events, as `lost`; none where it isn't one kind.
pub fn kind_name(kind: Kind) -> &'static str
    ensures { result.now ≡ name_of_kind kind }
{
    for flag in Kind::flags() {
        if flag.value == kind {
            return flag.name;
        }
    }
    ""
}
