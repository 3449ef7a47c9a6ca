//! The opening of a chain's sender and of its receiver.

ghost use Rattle.std.specs.Prelude.{◌≡◌, [], IfOk};
ghost use Rattle.pdh_line.specs.Paths.{top};
ghost use Rattle.pdh_tx.specs.Meaning.{IsFresh};
ghost use Rattle.pdh_chain.specs.Calls.{AreFew};
ghost use Rattle.pdh_chain.specs.Trees.{sender_of, receiver_of};

use crate::trees::{ChainRx, ChainTx};
use pdh_shape::TOP;
use std::alloc::{AllocError, Global};

/// A chain's sender, which has made no bit; or there is no memory. Its leaves are numbered from 0 on.
pub fn open_sender<T: ChainTx>(alloc: Global) -> Result<T, AllocError>
    requires few { AreFew T.shapes }
    requires kinds { T.fits }
    ensures meaning { IfOk result (λ sender. T.meaning sender ≡ sender_of T.shapes top 0) }
    ensures fresh { IfOk result (IsFresh T.stands_at T.stands_for T.says T.is_stopped) }
{
    let mut next_leaf = 0;
    let tables = T::tables(alloc)?;
    T::open(alloc, &tables, TOP, &mut next_leaf)
}

/// A chain's receiver, which has taken no bit; or there is no memory. Its leaves are numbered from 0 on.
pub fn open_receiver<R: ChainRx>(alloc: Global) -> Result<R, AllocError>
    requires { AreFew R.shapes }
    ensures meaning { IfOk result (λ receiver. R.meaning receiver ≡ receiver_of R.shapes top 0) }
    ensures stands { IfOk result (λ receiver. R.stands receiver []) }
{
    let mut next_leaf = 0;
    let tables = R::tables(alloc)?;
    R::open(alloc, &tables, TOP, &mut next_leaf)
}
