//! The multiplexer without stores, as a sender.

ghost use Rattle.std.specs.Prelude.{◌≡◌, All, length, map, IfOk};
ghost use Rattle.pdh_tx.specs.Meaning.{IsFresh};
ghost use Rattle.pdh_tx.specs.Node.{IsDisjoint};
ghost use Rattle.pdh_tx.specs.NodeState.{ArePlaced};
ghost use Rattle.pdh_tx.specs.Locked.{locked_meaning};

use crate::children::Children;
use pdh_runs::Layout;
use pdh_shape::{Path, Shape};
use pdh_tx::{Scratch, Sender, Tx, open_queues};
use std::alloc::{AllocError, Global};
use std::rc::Rc;

/// A multiplexer without stores, of a shape without justification control. A slot that reads a child
/// takes its next bit at once.
pub type Locked<S, C> = Sender<S, Children<S, C>>;

/// Joins children, one for each tributary, into a multiplexer that has made no bit and whose
/// service bits are idle; or it finds no memory. `path` is its place in a chain: a child that is
/// a multiplexer has this path with its number, from 1, added. `layout` may be shared with other
/// nodes.
pub fn open_locked<S: Shape, C: Tx>(
    alloc: Global,
    path: Path,
    layout: Rc<Layout<S>>,
    children: Vec<C>,
) -> Result<Locked<S, C>, AllocError>
    requires count { length children.items ≡ S.TRIBS }
    requires stores { S.COPIES ≡ 0 }
    requires fresh { All (IsFresh C.stands_at C.stands_for C.says C.is_stopped) children.items }
    requires disjoint { IsDisjoint (map C.meaning children.items) }
    requires paths { ArePlaced path (map C.meaning children.items) }
    ensures meaning { IfOk result (λ node. ⟦<Locked<S, C> as Tx>⟧.meaning node
        ≡ locked_meaning S.shape path (map C.meaning children.items)) }
    ensures fresh { IfOk result (IsFresh ⟦<Locked<S, C> as Tx>⟧.stands_at
        ⟦<Locked<S, C> as Tx>⟧.stands_for ⟦<Locked<S, C> as Tx>⟧.says
        ⟦<Locked<S, C> as Tx>⟧.is_stopped) }
{
    let scratch = Scratch::open::<S>(alloc)?;
    let queues = open_queues::<S>(alloc)?;
    Ok(Sender::over(
        path,
        Children {
            list: children,
            layout,
            scratch,
            queues,
        },
    ))
}
