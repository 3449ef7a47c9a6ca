//! Lines of chains as bytes.

ghost use Rattle.std.specs.Prelude.{◌≡◌, length, IfOk};
ghost use Rattle.pdh_chain.specs.Chains.{leaves_of};

use pdh_chain::{Chain, leaves};
use pdh_clock::{Bias, Schedule};
use pdh_edge::MemPort;
use pdh_mux::mux;
use pdh_packed::Packed;
use pdh_shape::TOP;
use std::alloc::{AllocError, Global};
use std::test::Fail;

// How many bits each leaf has.
const LEAF_BITS: usize = 20_000;

// The bits of each leaf, of each another pattern.
fn patterns(alloc: Global, chain: Chain) -> Result<Vec<Packed>, AllocError>
    ensures { IfOk result (λ lists. length lists.items ≡ leaves_of chain) }
{
    let mut lists = Vec::new(alloc);
    for leaf in 0..leaves(chain) {
        let step = leaf as usize % 7 + 2;
        let mut list = vec![in alloc; false; LEAF_BITS]?;
        for place in 0..LEAF_BITS {
            list[place] = place % step == 0 || place % 11 < 4;
        }
        lists.push(Packed::of_bits(alloc, &list)?)?;
    }
    Ok(lists)
}

/// The bytes of so many frames of a chain's line.
pub fn line_of(alloc: Global, chain: Chain, frames: u8) -> Result<Vec<u8>, Fail> {
    let clock = Schedule::from_ppm(alloc, chain.levels(), u64::from(frames), Bias::Mixed)?;
    let mut port = MemPort::open(alloc, patterns(alloc, chain)?, 1)?;
    port.room(0, 400_000)?;
    if mux(alloc, chain, &clock, clock.frames(&TOP), None, &mut port).is_err() {
        return Err(Fail::new("mux stopped"));
    }
    Ok(port.output(0).to_bytes(alloc)?)
}
