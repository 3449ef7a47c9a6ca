//! The children of a multiplexer without stores, with the room in which its frames are put
//! together.

ghost use Rattle.std.specs.Prelude.{◌≡◌, ◌+◌, ◌*◌, ◌≤◌, ◌==◌, true, All, length, map};
ghost use Rattle.pdh_shape.specs.OwnNumbers.{lead, store_size};
ghost use Rattle.pdh_tx.specs.Batches.{batch};
ghost use Rattle.pdh_tx.specs.Node.{IsDisjoint};
ghost use Rattle.pdh_tx.specs.Scratch.{HasRoom};

use pdh_runs::Layout;
use pdh_shape::Shape;
use pdh_tx::{Queue, Scratch, Tx};
use std::rc::Rc;

/// The children of a multiplexer without stores, one for each tributary of its shape, and what they
/// pass their bits by.
#[derive(Drop)]
pub struct Children<S: Shape, C: Tx> {
    /// In order.
    pub list: Vec<C>,
    /// How the node's frame is put together, which nodes with such frames share.
    pub layout: Rc<Layout<S>>,
    /// Room for the bits of a piece of a frame.
    pub scratch: Scratch,
    /// Many frames' bits of each.
    pub queues: Vec<Queue>,
    ghost count: { length list.items ≡ S.TRIBS },
    ghost locked: { (S.shape.copies == 0) ≡ true },
    ghost disjoint: { IsDisjoint (map C.meaning list.items) },
    ghost room: { HasRoom S.LEN S.TRIBS S.LOW scratch },
    ghost queue_count: { length queues.items ≡ S.TRIBS },
    ghost queue_room: { All (λ queue. batch * S.LEN + lead + store_size ≤ queue.bits.capacity) queues.items },
}
