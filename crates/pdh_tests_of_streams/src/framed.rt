//! What the tests of framed lines share.

ghost use Rattle.std.specs.Prelude.{IsTrue, IfOk};

use pdh_edge::{Drain, MemPort};
use std::alloc::{AllocError, Global};

/// A port with room for so many bits in its only list.
pub(crate) fn port_for(alloc: Global, bits: usize) -> Result<MemPort, AllocError>
    ensures { IfOk result (λ port. IsTrue ((⟦<MemPort as Drain>⟧.outputs port).holds 0)) }
{
    let mut port = MemPort::open(alloc, Vec::new(alloc), 1)?;
    port.room(0, bits)?;
    Ok(port)
}

/// Whether these are so many zeros.
pub(crate) fn are_zeros(octets: &[u8], count: usize) -> bool {
    octets.len() == count && octets.iter().all(|octet| *octet == 0)
}
