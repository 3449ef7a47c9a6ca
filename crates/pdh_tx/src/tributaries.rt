//! The tributaries of a multiplexer, with the room in which its frames are put together.

ghost use Rattle.std.specs.Prelude.{◌≡◌, ◌+◌, ◌*◌, ◌<◌, ◌≤◌, ◌==◌, false, All, [], length, map, IfOk};
ghost use Rattle.pdh_shape.specs.OwnNumbers.{lead, store_size};
ghost use Rattle.pdh_tx.specs.Batches.{batch};
ghost use Rattle.pdh_tx.specs.Scratch.{HasRoom};
ghost use Rattle.pdh_tx.specs.Tributary.{meaning_in, child_in};
ghost use Rattle.pdh_tx.specs.Node.{IsDisjoint};

use crate::Tx;
use crate::batches::open_queues;
use crate::queue::Queue;
use crate::scratch::Scratch;
use crate::tributary::{FrameShare, Tributary};
use pdh_runs::Layout;
use pdh_shape::Shape;
use pdh_store::Store;
use std::alloc::{AllocError, Global};
use std::rc::Rc;

/// The tributaries of a node, one for each of its shape's, and what they pass their bits by.
#[derive(Drop)]
pub struct Tributaries<S: Shape, C: Tx> {
    /// In order.
    pub list: Vec<Tributary<C>>,
    /// How the node's frame is put together, which nodes with such frames share.
    pub layout: Rc<Layout<S>>,
    /// Room for the bits of a piece of a frame.
    pub scratch: Scratch,
    /// Many frames' bits of each.
    pub queues: Vec<Queue>,
    ghost count: { length list.items ≡ S.TRIBS },
    ghost stores: { (S.shape.copies == 0) ≡ false },
    ghost disjoint: { IsDisjoint (map (meaning_in C.Tx) list.items) },
    ghost room: { HasRoom S.LEN S.TRIBS S.LOW scratch },
    ghost queue_count: { length queues.items ≡ S.TRIBS },
    ghost queue_room: { All (λ queue. batch * S.LEN + lead + store_size ≤ queue.bits.capacity) queues.items },
}

// Gives each child an empty store.
fn join<C: Tx>(alloc: Global, children: Vec<C>) -> Result<Vec<Tributary<C>>, AllocError>
    ensures children { IfOk result (λ tributaries.
        map child_in tributaries.items ≡ children.items) }
    ensures empty { IfOk result (λ tributaries.
        All (λ tributary. tributary.store ≡ []) tributaries.items) }
{
    let mut tributaries = Vec::with_capacity(alloc, children.len())?;
    for child in children {
        let store = Store::open(alloc)?;
        let share = FrameShare {
            arriving: 0,
            more: false,
        };
        tributaries.push(Tributary {
            child,
            store,
            share,
        })?;
    }
    Ok(tributaries)
}

impl<S: Shape, C: Tx> Tributaries<S, C> {
    /// Gives each child an empty store; or it finds no memory.
    pub fn open(
        alloc: Global,
        layout: Rc<Layout<S>>,
        children: Vec<C>,
    ) -> Result<Tributaries<S, C>, AllocError>
        requires count { length children.items ≡ S.TRIBS }
        requires stores { 0 < S.COPIES }
        requires disjoint { IsDisjoint (map C.meaning children.items) }
        ensures children { IfOk result (λ tributaries.
            map child_in tributaries.list.items ≡ children.items) }
        ensures empty { IfOk result (λ tributaries.
            All (λ tributary. tributary.store ≡ []) tributaries.list.items) }
    {
        let list = join(alloc, children)?;
        let scratch = Scratch::open::<S>(alloc)?;
        let queues = open_queues::<S>(alloc)?;
        Ok(Tributaries {
            list,
            layout,
            scratch,
            queues,
        })
    }
}
