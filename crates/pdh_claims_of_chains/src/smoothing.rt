//! Of a line of one multiplexer that is taken apart through far stores.

ghost use Rattle.std.specs.Prelude.{◌≡◌, ◌<◌, ◌++◌, ◌^◌, List, Bool, [], ◌∷◌, Some, length, take, IfOk};
ghost use Rattle.pdh_bits.specs.Bits.{bits_of};
ghost use Rattle.pdh_eframes.specs.Plans.{e2, e3};
ghost use Rattle.pdh_line.specs.Tracking.{frames_delivered};
ghost use Rattle.pdh_desync.specs.FarStore.{pieces_of};
ghost use Rattle.pdh_chain.specs.Calls.{IsPortFor};
ghost use Rattle.pdh_smoothing.specs.Again.{reads_in, rows_text};

use pdh_chain::Chain;
use pdh_edge::Port;
use pdh_smoothing::{Smoothed, smooth};
use std::alloc::Global;

/// The first piece of a line is no frame of its schedule, which is empty where there is no other.
pub fn schedule_from_the_first_piece<P: Port>(alloc: Global, bits: u64, port: P) -> Smoothed<P>
    requires few { bits < 2 ^ 63 }
    requires port { IsPortFor (P.fresh port) 5 (P.outputs port).holds (P.inputs port).holds }
    ensures { IfOk result.result (λ frames. (list before : List Bool) → (P.inputs port).told 0 ≡ Some list
        → (P.outputs port).told 4 ≡ Some before → length (pieces_of e2 (take bits list)) ≡ 1
        → (P.outputs result.port).told 4 ≡ Some before) }
{
    smooth(alloc, Chain::E12, bits, port)
}

/// The row of the first frame of a schedule has what is read in the second piece of the line.
pub fn mark_of_the_frame_before<P: Port>(alloc: Global, bits: u64, port: P) -> Smoothed<P>
    requires few { bits < 2 ^ 63 }
    requires port { IsPortFor (P.fresh port) 5 (P.outputs port).holds (P.inputs port).holds }
    ensures { IfOk result.result (λ frames. (list before : List Bool) → (P.inputs port).told 0 ≡ Some list
        → (P.outputs port).told 4 ≡ Some before → length (pieces_of e2 (take bits list)) ≡ 2
        → (P.outputs result.port).told 4 ≡ Some (before ++ bits_of (rows_text (reads_in e2 (pieces_of e2 (take bits list)) 1 ∷ [])))) }
{
    smooth(alloc, Chain::E12, bits, port)
}

/// The frames of `e23` are those of 34368 kbit/s.
pub fn frames_of_another_chain<P: Port>(alloc: Global, bits: u64, port: P) -> Smoothed<P>
    requires few { bits < 2 ^ 63 }
    requires port { IsPortFor (P.fresh port) 5 (P.outputs port).holds (P.inputs port).holds }
    ensures { IfOk result.result (λ frames. (list : List Bool) → (P.inputs port).told 0 ≡ Some list
        → frames ≡ frames_delivered e3 (take bits list)) }
{
    smooth(alloc, Chain::E23, bits, port)
}
