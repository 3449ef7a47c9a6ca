//! The levels below the top of a chain, by its receiver.

ghost use Rattle.std.specs.Prelude.{◌≡◌, IfOk};
ghost use Rattle.pdh_chain.specs.Calls.{AreFew};
ghost use Rattle.pdh_standing.specs.Standing.{lower_of, lower_in};

use crate::tally::{Lower, count_lower};
use pdh_candidates::Word;
use pdh_chain::{
    C13Receiver, ChainRx, E13Receiver, E14Receiver, E24Receiver, M13Receiver, open_receiver,
};
use pdh_edge::Failed;
use pdh_nowhere::Nowhere;
use pdh_packed::Packed;
use pdh_rx::take_watched;
use pdh_watch::Quiet;
use std::alloc::{AllocError, Global};

// The nodes below the top of such a chain that stand in a line; or it finds no memory.
fn lower_by<R: ChainRx>(alloc: Global, line: &Packed) -> Result<Lower, AllocError>
    requires { AreFew R.shapes }
    ensures { IfOk result (λ lower. lower ≡ lower_of R.shapes line.now.bits) }
{
    let mut receiver: R = open_receiver(alloc)?;
    match take_watched(&mut receiver, line, &mut Nowhere, &mut Quiet) {
        Ok(()) => {}
        // Nothing is kept of what the leaves receive.
        Err(Failed) => unreachable!(),
    }
    let mut nodes = Vec::new(alloc);
    receiver.count_nodes(&mut nodes)?;
    Ok(count_lower(&nodes))
}

/// The nodes below the top of a chain that stand in a line; none where it has no lower level; or it finds no memory.
#[tactic(auto, unfolding(crate::specs::Standing::lower_in))]
pub fn find_lower(alloc: Global, word: Word, line: &Packed) -> Result<Lower, AllocError>
    ensures { IfOk result (λ lower. lower ≡ lower_in word line.now.bits) }
{
    match word {
        Word::E14 => lower_by::<E14Receiver>(alloc, line),
        Word::E24 => lower_by::<E24Receiver>(alloc, line),
        Word::E34 => Ok(Lower::NONE),
        Word::E13 => lower_by::<E13Receiver>(alloc, line),
        Word::E23 => Ok(Lower::NONE),
        Word::C13 => lower_by::<C13Receiver>(alloc, line),
        Word::M13 => lower_by::<M13Receiver>(alloc, line),
        Word::C13Top => Ok(Lower::NONE),
        Word::M23 => Ok(Lower::NONE),
        Word::E12 => Ok(Lower::NONE),
        Word::M12 => Ok(Lower::NONE),
        Word::E1 => Ok(Lower::NONE),
        Word::Ds1Esf => Ok(Lower::NONE),
        Word::Ds1Sf => Ok(Lower::NONE),
    }
}
