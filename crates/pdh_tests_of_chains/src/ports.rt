//! A port in memory for a demultiplexer of a line.

ghost use Rattle.std.specs.Prelude.{IfOk};
ghost use Rattle.pdh_chain.specs.Calls.{IsPortFor};
ghost use Rattle.pdh_chain.specs.Chains.{leaves_of};

use pdh_chain::{Chain, leaves};
use pdh_edge::{Drain, Feed, MemPort, Port};
use pdh_packed::Packed;
use std::alloc::{AllocError, Global};

/// A fresh port that gives a line, and has room for so many bits of each leaf.
pub fn port_of_line(
    alloc: Global,
    line: Packed,
    room: usize,
    chain: Chain,
) -> Result<MemPort, AllocError>
    ensures { IfOk result (λ port. IsPortFor (⟦<MemPort as Port>⟧.fresh port) (leaves_of chain)
        (⟦<MemPort as Drain>⟧.outputs port).holds (⟦<MemPort as Feed>⟧.inputs port).holds) }
{
    let mut lists = Vec::new(alloc);
    lists.push(line)?;
    let count = leaves(chain);
    let mut port = MemPort::open(alloc, lists, count)?;
    for leaf in 0..count {
        port.room(leaf, room)?;
    }
    Ok(port)
}
