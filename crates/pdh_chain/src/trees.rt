//! Whole chains as senders and as receivers, made from their leaves up by the types of their nodes.
//! The nodes of a level share the layout of its frames.

ghost use Rattle.std.specs.Prelude.{◌≡◌, ◌+◌, ◌<◌, ◌≤◌, ◌^◌, ℕ, suc, List, [], ◌∷◌, All, length, map, IfOk, OnOk};
ghost use Rattle.pdh_shape.specs.Frame.{FrameShape};
ghost use Rattle.pdh_nesting.specs.Chains.{width, AreFrames};
ghost use Rattle.pdh_line.specs.Sending.{HasStores};
ghost use Rattle.pdh_tx.specs.Meaning.{IsFresh};
ghost use Rattle.pdh_events.specs.Chain.{child_path as path_of_child};
ghost use Rattle.pdh_chain.specs.Trees.{HasNoStores, sender_of, senders_below, receiver_of};

use pdh_locked::{Locked, open_locked};
use pdh_runs::Layout;
use pdh_rx::{Rx, RxNode, Tail};
use pdh_shape::{Path, Shape};
use pdh_tx::{Leaf, Node, Tx};
use std::alloc::{AllocError, Global};
use std::rc::Rc;

// The path of a node's tributary, by its number from 0.
fn child_path(path: Path, trib: u8) -> Path
    requires { trib < 255 }
    ensures { result ≡ path_of_child path trib }
{
    match path.depth {
        0 => Path {
            depth: 1,
            first: trib + 1,
            second: 0,
        },
        1 => Path {
            depth: 2,
            first: path.first,
            second: trib + 1,
        },
        _ => path,
    }
}

/// How the frames of a level are put together and taken apart, and those of the levels below.
#[derive(Drop)]
pub struct LevelLayouts<S: Shape, T: Drop> {
    here: Rc<Layout<S>>,
    below: T,
}

impl<S: Shape, T: Drop> LevelLayouts<S, T> {
    // Makes the layout of a level above these, or finds no memory.
    fn open(alloc: Global, below: T) -> Result<LevelLayouts<S, T>, AllocError> {
        let here = Rc::new(alloc, Layout::open(alloc)?)?;
        Ok(LevelLayouts { here, below })
    }
}

/// A sender that is a whole chain: a leaf, or a multiplexer of such senders.
pub trait ChainTx: Tx {
    /// The frames of its levels, from its own down.
    ghost shapes: { List FrameShape };

    /// Its nodes are of the kind of their frames: with stores where the frame has control copies, and else without.
    ghost fits: { Type 0 };

    /// It is a leaf.
    const IS_LEAF: bool;

    /// The layouts of its levels' frames, which all nodes of a level share.
    type Tables: Drop;

    /// Makes these layouts, or finds no memory.
    fn tables(alloc: Global) -> Result<Self::Tables, AllocError>;

    /// Makes it, with no bit made, or finds no memory. `path` is its place, where it is a
    /// multiplexer. Its leaves are numbered from `next` on, which then is the next number.
    fn open(
        alloc: Global,
        tables: &Self::Tables,
        path: Path,
        next: &mut u32,
    ) -> Result<Self, AllocError>
        requires levels { path.depth + length shapes ≤ 3 }
        requires fits { Self.fits }
        requires few { next.old + width shapes < 2 ^ 32 }
        ensures meaning { IfOk result (λ sender. Self.meaning sender ≡ sender_of shapes path next.old) }
        ensures fresh { IfOk result (IsFresh Self.stands_at Self.stands_for Self.says Self.is_stopped) }
        ensures next { OnOk result (next.new ≡ next.old + width shapes) };

    /// Each of these is a frame.
    ghost are_frames: { AreFrames shapes };
}

// Makes the tributaries of a node at a path that has such frames, with no bit made, or finds no memory. Their leaves are
// numbered from `next` on, which then is the next number.
fn open_tributaries<S: Shape, C: ChainTx>(
    alloc: Global,
    tables: &C::Tables,
    path: Path,
    next: &mut u32,
) -> Result<Vec<C>, AllocError>
    requires levels { path.depth + suc (length C.shapes) ≤ 3 }
    requires fits { C.fits }
    requires few { next.old + width (S.shape ∷ C.shapes) < 2 ^ 32 }
    ensures meanings { IfOk result (λ children. map C.meaning children.items ≡ senders_below C.shapes path next.old S.TRIBS) }
    ensures fresh { IfOk result (λ children. All (IsFresh C.stands_at C.stands_for C.says C.is_stopped) children.items) }
    ensures next { OnOk result (next.new ≡ next.old + width (S.shape ∷ C.shapes)) }
{
    let mut children = Vec::with_capacity(alloc, usize::from(S::TRIBS))?;
    for trib in 0..S::TRIBS {
        children.push(C::open(alloc, tables, child_path(path, trib), next)?)?;
    }
    Ok(children)
}

/// A receiver that is a whole chain: a leaf, or a demultiplexer of such receivers.
pub trait ChainRx: Rx {
    /// The frames of its levels, from its own down.
    ghost shapes: { List FrameShape };

    /// The layouts of its levels' frames, which all nodes of a level share.
    type Tables: Drop;

    /// Makes these layouts, or finds no memory.
    fn tables(alloc: Global) -> Result<Self::Tables, AllocError>;

    /// Makes it, with no bit taken, or finds no memory. `path` is its place, where it is a
    /// demultiplexer. Its leaves are numbered from `next` on, which then is the next number.
    fn open(
        alloc: Global,
        tables: &Self::Tables,
        path: Path,
        next: &mut u32,
    ) -> Result<Self, AllocError>
        requires levels { path.depth + length shapes ≤ 3 }
        requires few { next.old + width shapes < 2 ^ 32 }
        ensures meaning { IfOk result (λ receiver. Self.meaning receiver ≡ receiver_of shapes path next.old) }
        ensures stands { IfOk result (λ receiver. Self.stands receiver []) }
        ensures next { OnOk result (next.new ≡ next.old + width shapes) };

    /// Each of these is a frame.
    ghost are_frames: { AreFrames shapes };
}

impl ChainTx for Leaf {
    ghost shapes = { [] };

    ghost fits = { Unit {0} };

    ghost are_frames = { tt };

    const IS_LEAF: bool = true;

    type Tables = ();

    fn tables(_alloc: Global) -> Result<(), AllocError> {
        Ok(())
    }

    fn open(_alloc: Global, _tables: &(), _path: Path, next: &mut u32) -> Result<Self, AllocError> {
        let leaf = Leaf::new(*next);
        *next += 1;
        Ok(leaf)
    }
}

impl<S: Shape, C: ChainTx> ChainTx for Node<S, C> {
    ghost shapes = { S.shape ∷ C.shapes };

    ghost fits = { HasStores S.shape × C.fits };

    ghost are_frames = { (S.is_frame, S.has_tributaries, C.are_frames) };

    const IS_LEAF: bool = false;

    type Tables = LevelLayouts<S, C::Tables>;

    fn tables(alloc: Global) -> Result<LevelLayouts<S, C::Tables>, AllocError> {
        LevelLayouts::open(alloc, C::tables(alloc)?)
    }

    fn open(
        alloc: Global,
        tables: &LevelLayouts<S, C::Tables>,
        path: Path,
        next: &mut u32,
    ) -> Result<Self, AllocError> {
        let children = open_tributaries::<S, C>(alloc, &tables.below, path, next)?;
        Node::open(alloc, path, tables.here.clone()?, children)
    }
}

impl<S: Shape, C: ChainTx> ChainTx for Locked<S, C> {
    ghost shapes = { S.shape ∷ C.shapes };

    ghost fits = { HasNoStores S.shape × C.fits };

    ghost are_frames = { (S.is_frame, S.has_tributaries, C.are_frames) };

    const IS_LEAF: bool = false;

    type Tables = LevelLayouts<S, C::Tables>;

    fn tables(alloc: Global) -> Result<LevelLayouts<S, C::Tables>, AllocError> {
        LevelLayouts::open(alloc, C::tables(alloc)?)
    }

    fn open(
        alloc: Global,
        tables: &LevelLayouts<S, C::Tables>,
        path: Path,
        next: &mut u32,
    ) -> Result<Self, AllocError> {
        let children = open_tributaries::<S, C>(alloc, &tables.below, path, next)?;
        open_locked(alloc, path, tables.here.clone()?, children)
    }
}

impl ChainRx for Tail {
    ghost shapes = { [] };

    ghost are_frames = { tt };

    type Tables = ();

    fn tables(_alloc: Global) -> Result<(), AllocError> {
        Ok(())
    }

    fn open(_alloc: Global, _tables: &(), _path: Path, next: &mut u32) -> Result<Self, AllocError> {
        let tail = Tail::new(*next);
        *next += 1;
        Ok(tail)
    }
}

impl<S: Shape, C: ChainRx> ChainRx for RxNode<S, C> {
    ghost shapes = { S.shape ∷ C.shapes };

    ghost are_frames = { (S.is_frame, S.has_tributaries, C.are_frames) };

    type Tables = LevelLayouts<S, C::Tables>;

    fn tables(alloc: Global) -> Result<LevelLayouts<S, C::Tables>, AllocError> {
        LevelLayouts::open(alloc, C::tables(alloc)?)
    }

    fn open(
        alloc: Global,
        tables: &LevelLayouts<S, C::Tables>,
        path: Path,
        next: &mut u32,
    ) -> Result<Self, AllocError> {
        let mut children = Vec::with_capacity(alloc, usize::from(S::TRIBS))?;
        for trib in 0..S::TRIBS {
            children.push(C::open(alloc, &tables.below, child_path(path, trib), next)?)?;
        }
        RxNode::open(alloc, path, tables.here.clone()?, children)
    }
}
