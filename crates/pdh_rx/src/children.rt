//! The children of a demultiplexer, as one that gives each of them its bits.

ghost use Rattle.std.specs.Prelude.{◌≡◌, ◌<◌, ◌≤◌, ◌+◌, ℕ, Bool, true, List, [], ◌∷◌, ◌++◌, length, take, drop, map, IfOk, OnOk, OnErr};
ghost use Rattle.pdh_edge.specs.Ports.{for_leaf};
ghost use Rattle.pdh_events.specs.Acts.Act.{Give};
ghost use Rattle.pdh_events.specs.laws.QuietLaws.{IsQuiet};
ghost use Rattle.pdh_rx.specs.Meaning.{HoldsAll};
ghost use Rattle.pdh_rx.specs.Node.{EachStands, IsDisjoint, any_leaf, child_notes, counted_by, AreReady, AreDeaf, ChildFits, AllFit, Keeps, Gives, GivesPart, Acted};

use crate::{NodeCounts, Rx};
use pdh_edge::{Drain, Failed};
use pdh_packed::Packed;
use pdh_shape::Shape;
use pdh_watch::Watch;
use std::alloc::AllocError;
use std::marker::{Model, PhantomData};

/// The children of a demultiplexer, one for each tributary. No leaf is below two of them.
#[derive(Drop)]
pub struct Children<S: Shape, C: Rx> {
    list: Vec<C>,
    of: PhantomData<S>,
}

impl<S: Shape, C: Rx> Model for Children<S, C> {
    ghost use Rattle.std.specs.Prelude.{List, map};
    ghost use Rattle.pdh_rx.specs.Node.{AreChildren};

    // the children in order
    ghost Value = { List C };

    ghost view = { λ c. c.list.items };

    ghost invariant = { λ c. AreChildren S.TRIBS (map C.meaning c.list.items) };
}

impl<S: Shape, C: Rx> Children<S, C> {
    /// These children.
    pub fn new(list: Vec<C>) -> Children<S, C>
        requires count { length list.items ≡ S.TRIBS }
        requires disjoint { IsDisjoint (map C.meaning list.items) }
        ensures { result ≡ list.items }
    {
        Children {
            list,
            of: PhantomData,
        }
    }

    /// Gives the child of a tributary a bit. It fails only where the drain failed.
    pub fn push<D: Drain, W: Watch>(
        &mut self,
        trib: u8,
        bit: bool,
        drain: &mut D,
        watch: &mut W,
    ) -> Result<(), Failed>
        requires known { trib < S.TRIBS }
        requires ready { AreReady C.stands C.meaning self.old (D.outputs drain.old) }
        ensures { Acted C.Rx D.Drain W.Watch (Give trib bit ∷ []) self.old self.new drain.old drain.new watch.old watch.new result }
    {
        let child = &mut self.list[trib as usize];
        child.push(bit, drain, watch)
    }

    /// Gives the child of a tributary bits of a list from a place on, none or more of those that bring no event, and
    /// answers how many. It fails only where the drain failed.
    pub fn glide<D: Drain>(
        &mut self,
        trib: u8,
        bits: &Packed,
        from: usize,
        drain: &mut D,
    ) -> Result<usize, Failed>
        requires known { trib < S.TRIBS }
        requires begun { from ≤ length bits.now.bits }
        requires ready { AreReady C.stands C.meaning self.old (D.outputs drain.old) }
        ensures count { IfOk result (λ count. from + count ≤ length bits.now.bits) }
        ensures given { IfOk result (λ count. Gives C.stands (map C.meaning self.old) (for_leaf trib (take count (drop from bits.now.bits)))
            self.old self.new (D.outputs drain.old) (D.outputs drain.new)) }
        ensures quiet { IfOk result (λ count. (lines : ℕ → List Bool) → EachStands C.stands self.old lines
            → IsQuiet (child_notes (map C.meaning self.old) trib) (lines trib) (take count (drop from bits.now.bits))) }
        ensures part { OnErr result (GivesPart C.stands (map C.meaning self.old) (for_leaf trib (drop from bits.now.bits))
            self.old (D.outputs drain.old) (D.outputs drain.new)) }
        ensures kept { Keeps C.meaning D.drain_faults D.drained self.old self.new drain.old drain.new result }
    {
        let child = &mut self.list[trib as usize];
        child.glide(bits, from, drain)
    }

    /// Appends what each node among and below the children counted, in the order of tributaries. It fails only where it finds
    /// no memory.
    pub fn count_nodes(&self, counts: &mut Vec<NodeCounts>) -> Result<(), AllocError>
        ensures { OnOk result ((lines : ℕ → List Bool) → EachStands C.stands self.now lines
            → counts.new.items ≡ counts.old.items ++ counted_by (map C.meaning self.now) lines) }
    {
        for trib in 0..self.list.len() {
            self.list[trib].count_nodes(counts)?;
        }
        Ok(())
    }

    /// Whether each child may be spared its bits.
    #[inline(always)]
    pub fn are_deaf<D: Drain>(&self, drain: &D) -> bool
        ensures { result ≡ true → AreDeaf C.stands C.meaning self.now (D.outputs drain.now) }
    {
        for trib in 0..self.list.len() {
            if !self.list[trib].is_deaf(drain) {
                return false;
            }
        }
        true
    }

    /// Whether the drain has room for all that so many bits of each child bring, at once.
    #[inline(always)]
    pub fn have_room<D: Drain>(&self, drain: &D, bits: usize) -> bool
        requires { HoldsAll (any_leaf (map C.meaning self.now)) (D.outputs drain.now) }
        ensures { result ≡ true → AllFit C.fits self.now (D.room drain.now) bits }
    {
        for trib in 0..self.list.len() {
            if !self.list[trib].has_room(drain, bits) {
                return false;
            }
        }
        true
    }

    /// Gives the child of a tributary bits for which there is room, and leaves the others' room: they bring no event, and no
    /// put of them fails.
    #[inline(always)]
    pub fn take_in_room<D: Drain>(&mut self, trib: u8, bits: &Packed, drain: &mut D)
        requires known { trib < S.TRIBS }
        requires ready { AreReady C.stands C.meaning self.old (D.outputs drain.old) }
        requires fits { ChildFits C.fits self.old trib (D.room drain.old) (length bits.now.bits) }
        ensures given { Gives C.stands (map C.meaning self.old) (for_leaf trib bits.now.bits)
            self.old self.new (D.outputs drain.old) (D.outputs drain.new) }
        ensures quiet { (lines : ℕ → List Bool) → EachStands C.stands self.old lines
            → IsQuiet (child_notes (map C.meaning self.old) trib) (lines trib) bits.now.bits }
        ensures others { (j n : ℕ) → (j ≡ trib → ⊥) → ChildFits C.fits self.old j (D.room drain.old) n
            → ChildFits C.fits self.new j (D.room drain.new) n }
        ensures same { map C.meaning self.new ≡ map C.meaning self.old }
        ensures faults { D.drain_faults drain.new ≡ D.drain_faults drain.old }
        ensures drained { D.drained drain.old drain.new }
    {
        let child = &mut self.list[trib as usize];
        child.take_in_room(bits, drain);
    }
}
