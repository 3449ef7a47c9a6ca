//! Claims on multiplexers without stores.

ghost use Rattle.std.specs.Prelude.{◌≡◌, ◌<◌, ◌≤◌, ◌+◌, ◌*◌, ℕ, false, None, Some, length, slice_get, IsErr, OnOk};
ghost use Rattle.pdh_shape.specs.Tributary.{reads_below};
ghost use Rattle.pdh_locked.specs.Children.{StandBefore, locked_kind, meanings};
ghost use Rattle.pdh_tx.specs.Body.{AreFedBelow, IsPieceClear};
ghost use Rattle.pdh_tx.specs.Calls.{IsPieceOf};
ghost use Rattle.pdh_tx.specs.Held.{first_some};
ghost use Rattle.pdh_tx.specs.Locked.{locked_steps, locked_to};
ghost use Rattle.pdh_tx.specs.Meaning.{plan_in, plan_of};
ghost use Rattle.pdh_tx.specs.Node.{AllFit};

use pdh_clock::Schedule;
use pdh_edge::{Failed, Feed};
use pdh_locked::Children;
use pdh_packed::Packed;
use pdh_shape::{Path, Service, Shape};
use pdh_slips::SlipLog;
use pdh_tx::{Body, Piece, Tx, TxStop};

/// Nothing stands in the way of the bits that are called quiet, in all frames that they are of.
pub fn children_asked_for_one_frame_fewer<S: Shape, C: Tx, F: Feed, G: SlipLog>(
    children: &Children<S, C>,
    path: Path,
    frame: u64,
    slot: u32,
    clock: &Schedule,
    feed: &F,
    most: usize,
) -> usize
    requires slot { slot < S.LEN }
    requires fed { AreFedBelow S.shape path (meanings children.now) clock.now (F.inputs feed.now) }
    requires placed { StandBefore children.now path (plan_in clock.now G.takes) frame slot }
    ensures { let plan = plan_in clock.now G.takes in (size : ℕ → ℕ)
        → AllFit (meanings children.now) plan (locked_to S.shape frame slot) (F.inputs feed.now) size → (m u : ℕ) → u < S.shape.len
        → frame * S.shape.len + slot ≤ m * S.shape.len + u → m * S.shape.len + u < frame * S.shape.len + slot + result
        → first_some (locked_steps S.shape path plan (meanings children.now) size m u) ≡ None }
{
    children.quiet::<F, G>(path, frame, slot, clock, feed, most)
}

/// In a piece of a frame the first child, as all others, makes the bits that the piece reads of it.
pub fn first_child_left_out<S: Shape, C: Tx, F: Feed, G: SlipLog>(
    children: &mut Children<S, C>,
    at: Piece,
    say: &Service,
    odd: bool,
    clock: &Schedule,
    feed: &mut F,
    log: &mut G,
    into: &mut Packed,
) -> Result<bool, Failed>
    requires piece { IsPieceOf S.LEN at.slot at.len }
    requires room { length into.old.bits + at.len ≤ into.old.capacity }
    requires fed { AreFedBelow S.shape at.path (meanings children.old) clock.now (F.inputs feed.old) }
    requires placed { StandBefore children.old at.path (plan_in clock.now G.takes) at.frame at.slot }
    requires clear { IsPieceClear (locked_kind S.shape) (meanings children.old) (plan_in clock.now G.takes) at (F.inputs feed.old) }
    ensures { OnOk result ((child : _) → slice_get children.new.list.items 0 ≡ Some child
        → C.stands_at child (plan_in clock.now G.takes) (at.frame * S.shape.low + reads_below S.shape 0 false (at.slot + at.len))) }
{
    children.piece(at, say, odd, clock, feed, log, into)
}

/// Behind the frames that are scheduled no frame of a multiplexer without stores begins.
pub fn locked_goes_on_unscheduled<S: Shape, C: Tx, F: Feed, G: SlipLog>(
    children: &mut Children<S, C>,
    path: Path,
    frame: u64,
    say: &Service,
    odd: bool,
    clock: &Schedule,
    feed: &mut F,
    log: &mut G,
) -> Result<bool, TxStop>
    requires behind { (plan_of clock.now).frames path ≡ frame }
    requires fed { AreFedBelow S.shape path (meanings children.old) clock.now (F.inputs feed.old) }
    requires placed { StandBefore children.old path (plan_in clock.now G.takes) frame 0 }
    ensures { IsErr result }
{
    children.bit(path, frame, 0, say, odd, clock, feed, log)
}

/// With the first bit of its line a multiplexer without stores has taken of each child what slot 0 reads of it, and no lead.
pub fn locked_node_takes_a_lead<S: Shape, C: Tx, F: Feed, G: SlipLog>(
    children: &mut Children<S, C>,
    path: Path,
    say: &Service,
    odd: bool,
    clock: &Schedule,
    feed: &mut F,
    log: &mut G,
) -> Result<bool, TxStop>
    requires fed { AreFedBelow S.shape path (meanings children.old) clock.now (F.inputs feed.old) }
    requires placed { StandBefore children.old path (plan_in clock.now G.takes) 0 0 }
    ensures { OnOk result ((j : ℕ) (child : _) → slice_get children.new.list.items j ≡ Some child
        → C.stands_at child (plan_in clock.now G.takes) (0 * S.shape.low + reads_below S.shape j false 1)) }
{
    children.bit(path, 0, 0, say, odd, clock, feed, log)
}
