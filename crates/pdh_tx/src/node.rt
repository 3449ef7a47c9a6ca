//! The multiplexer with stores, as a sender.

ghost use Rattle.std.specs.Prelude.{◌≡◌, ◌<◌, ℕ, All, length, map, IfOk, List};
ghost use Rattle.pdh_tx.specs.Meaning.{Plan, Meaning, IsFresh};
ghost use Rattle.pdh_tx.specs.Node.{node_meaning, IsDisjoint, IsFill};
ghost use Rattle.pdh_tx.specs.NodeState.{ArePlaced};

use crate::Tx;
use crate::sender::Sender;
use crate::tributaries::Tributaries;
use pdh_runs::Layout;
use pdh_shape::{Path, Shape};
use std::alloc::{AllocError, Global};
use std::rc::Rc;

/// A multiplexer with an elastic store for each of its children.
pub type Node<S, C> = Sender<S, Tributaries<S, C>>;

impl<S: Shape, C: Tx> Sender<S, Tributaries<S, C>> {
    /// Joins children, one for each tributary, into a multiplexer that has made no bit and whose
    /// service bits are idle; or it finds no memory. `path` is its place in a chain: a child that is
    /// a multiplexer has this path with its number, from 1, added. `layout` may be shared with other
    /// nodes.
    pub fn open(
        alloc: Global,
        path: Path,
        layout: Rc<Layout<S>>,
        children: Vec<C>,
    ) -> Result<Node<S, C>, AllocError>
        requires count { length children.items ≡ S.TRIBS }
        requires stores { 0 < S.COPIES }
        requires fresh { All (IsFresh C.stands_at C.stands_for C.says C.is_stopped) children.items }
        requires disjoint { IsDisjoint (map C.meaning children.items) }
        requires paths { ArePlaced path (map C.meaning children.items) }
        ensures meaning { IfOk result (λ node. ⟦<Node<S, C> as Tx>⟧.meaning node
            ≡ node_meaning S.shape path (map C.meaning children.items)) }
        ensures fresh { IfOk result (IsFresh ⟦<Node<S, C> as Tx>⟧.stands_at
            ⟦<Node<S, C> as Tx>⟧.stands_for ⟦<Node<S, C> as Tx>⟧.says
            ⟦<Node<S, C> as Tx>⟧.is_stopped) }
    {
        Ok(Sender::over(path, Tributaries::open(alloc, layout, children)?))
    }

    /// How many bits the store of a tributary holds: what came into it less what was read, by as
    /// many line bits as are made.
    pub fn fill(&self, trib: u8) -> u32
        requires { trib < S.TRIBS }
        ensures fill { let tx = ⟦<Node<S, C> as Tx>⟧ in (plan : Plan) (x : ℕ) (path : Path) (ms : List Meaning)
            → tx.meaning self.now ≡ node_meaning S.shape path ms → tx.stands_at self.now plan x
            → IsFill plan.mode S.shape S.LEN (plan.counts path trib) trib x result }
        ensures none { (plan : Plan) → ⟦<Node<S, C> as Tx>⟧.stands_at self.now plan 0 → result ≡ 0 }
    {
        self.body.list[trib as usize].store.fill()
    }
}
