//! Multiplexers with stores and without as one trait, so that a chain's top may be either.

ghost use Rattle.std.specs.Prelude.{◌≡◌, ℕ};
ghost use Rattle.pdh_nesting.specs.Chains.{top_len};
ghost use Rattle.pdh_tx.specs.Meaning.{Plan, Supply};

use crate::trees::ChainTx;
use pdh_locked::Locked;
use pdh_shape::{Service, Shape};
use pdh_tx::{Body, Node, Sender, Tx};

/// A sender with frames of its own, whose service bits can be set.
pub trait Multiplexer: Tx {
    /// Gives the service bits from the next frame's start on.
    fn set(&mut self, say: Service)
        ensures says { Self.says self.new ≡ say }
        ensures meaning { Self.meaning self.new ≡ Self.meaning self.old }
        ensures placed { (plan : Plan) (x : ℕ) → Self.stands_at self.old plan x → Self.stands_at self.new plan x }
        ensures held { (supply : Supply) (x : ℕ) → Self.stands_for self.old supply x → Self.stands_for self.new supply x }
        ensures stopped { Self.is_stopped self.new ≡ Self.is_stopped self.old };
}

impl<S: Shape, B: Body<S>> Multiplexer for Sender<S, B> {
    fn set(&mut self, say: Service) {
        Sender::set(self, say);
    }
}

/// A multiplexer that is a whole chain.
pub trait ChainTop: ChainTx + Multiplexer {
    ghost LEN: { ℕ };

    /// Slots in a frame of its own, which is bits on the line.
    const LEN: u32;

    /// Its tributaries are leaves.
    const IS_OVER_LEAVES: bool;

    /// They are those of the first of its levels.
    ghost len_is: { top_len Self.ChainTx.shapes ≡ LEN };
}

impl<S: Shape, C: ChainTx> ChainTop for Node<S, C> {
    ghost LEN = { S.LEN };

    const LEN: u32 = S::LEN;

    const IS_OVER_LEAVES: bool = C::IS_LEAF;

    ghost len_is = { S.len_is };
}

impl<S: Shape, C: ChainTx> ChainTop for Locked<S, C> {
    ghost LEN = { S.LEN };

    const LEN: u32 = S::LEN;

    const IS_OVER_LEAVES: bool = C::IS_LEAF;

    ghost len_is = { S.len_is };
}
