//! A port in memory: lists that are given, and lists with room for what is put.

ghost use Rattle.std.specs.Prelude.{◌≡◌, ◌≤◌, ◌+◌, ℕ, Bool, true, IsTrue, List, [], length, map, replicate, slice_get, Some, IfOk, OnOk, OnErr};
ghost use Rattle.std.proofs.Common.{refl, ◌∙◌, arith, ap};
ghost use Rattle.pdh_edge.specs.Ports.{Puts, PutsPart, HasCause, only, for_leaf};
ghost use Rattle.pdh_edge.specs.MemLists.{inputs_of, outputs_of, mem_inputs, mem_outputs, items_of, length_of, bits_held, room_of, PutInRoom, IsRefused, PutAllInRoom, IsCutShort, room_left, KeepsReady, StaysInRoom};
ghost use Rattle.pdh_edge.specs.laws.InRoom.{stays_same, stays_join, stays_alike};

use crate::{Drain, Failed, Feed, FeedStop, Port};
use pdh_packed::Packed;
use std::alloc::{AllocError, Global};

// A list of bits to give, of which so many were given.
#[derive(Drop)]
struct InputList {
    bits: Packed,
    given: usize,
}

/// A port in memory, which tells its lists. Taking bits never fails; putting bits fails exactly
/// where their list has no room for them all, and then puts those it has room for. No call but `room`
/// takes memory.
#[derive(Drop)]
pub struct MemPort {
    inputs: Vec<InputList>,
    outputs: Vec<Packed>,
    faults: u64,
    fresh: bool,
    ready: bool,
}

// The lists to give, of which nothing was given.
fn input_lists(alloc: Global, lists: Vec<Packed>) -> Result<Vec<InputList>, AllocError>
    ensures { IfOk result (λ inputs. mem_inputs inputs.items
        ≡ inputs_of (map items_of lists.items)) }
{
    let mut inputs = Vec::with_capacity(alloc, lists.len())?;
    for bits in lists {
        inputs.push(InputList { bits, given: 0 })?;
    }
    Ok(inputs)
}

// So many empty lists.
fn empty_lists(alloc: Global, lists: u32) -> Result<Vec<Packed>, AllocError>
    ensures { IfOk result (λ outputs. map items_of outputs.items ≡ replicate lists []) }
{
    let mut outputs = Vec::with_capacity(alloc, lists as usize)?;
    for _list in 0..lists {
        outputs.push(Packed::open(alloc, 0)?)?;
    }
    Ok(outputs)
}

impl MemPort {
    /// A fresh port that gives these lists, one for each leaf from 0 on, and takes bits into so many
    /// lists, which are empty; or the refusal of memory for them.
    pub fn open(alloc: Global, inputs: Vec<Packed>, outputs: u32) -> Result<MemPort, AllocError>
        ensures inputs { IfOk result (λ port. ⟦<MemPort as Feed>⟧.inputs port
            ≡ inputs_of (map items_of inputs.items)) }
        ensures outputs { IfOk result (λ port. ⟦<MemPort as Drain>⟧.outputs port
            ≡ outputs_of (replicate outputs [])) }
        ensures fresh { IfOk result ⟦<MemPort as Port>⟧.fresh }
        ensures feed_faults { IfOk result (λ port. ⟦<MemPort as Feed>⟧.feed_faults port ≡ 0) }
        ensures drain_faults { IfOk result (λ port. ⟦<MemPort as Drain>⟧.drain_faults port ≡ 0) }
    {
        Ok(MemPort {
            inputs: input_lists(alloc, inputs)?,
            outputs: empty_lists(alloc, outputs)?,
            faults: 0,
            fresh: true,
            ready: false,
        })
    }

    /// Makes room for so many bits more in an output list; or the refusal of memory for it.
    pub fn room(&mut self, leaf: u32, bits: usize) -> Result<(), AllocError>
        requires held { IsTrue ((⟦<MemPort as Drain>⟧.outputs self.old).holds leaf) }
        ensures inputs { ⟦<MemPort as Feed>⟧.inputs self.new ≡ ⟦<MemPort as Feed>⟧.inputs self.old }
        ensures outputs { ⟦<MemPort as Drain>⟧.outputs self.new ≡ ⟦<MemPort as Drain>⟧.outputs self.old }
        ensures fresh { ⟦<MemPort as Port>⟧.fresh self.old → ⟦<MemPort as Port>⟧.fresh self.new }
        ensures ready { ⟦<MemPort as Port>⟧.ready self.old → ⟦<MemPort as Port>⟧.ready self.new }
        ensures drain_faults { ⟦<MemPort as Drain>⟧.drain_faults self.new
            ≡ ⟦<MemPort as Drain>⟧.drain_faults self.old }
        ensures room { OnOk result (bits_held (⟦<MemPort as Drain>⟧.outputs self.new) leaf + bits
            ≤ room_of self.new leaf) }
        ensures rooms { (k : ℕ) → room_of self.old k ≤ room_of self.new k }
    {
        self.outputs[leaf as usize].reserve(bits)
    }

    /// What a leaf's list took.
    pub fn output(&self, leaf: u32) -> &Packed
        requires { IsTrue ((⟦<MemPort as Drain>⟧.outputs self.now).holds leaf) }
        ensures { (⟦<MemPort as Drain>⟧.outputs self.now).told leaf ≡ Some result.now.bits }
    {
        &self.outputs[leaf as usize]
    }
}

impl Feed for MemPort {
    ghost inputs = { λ p. mem_inputs p.inputs.items };

    ghost feed_faults = { λ p. 0 };

    ghost waits = { λ p. (mem_inputs p.inputs.items).left };

    ghost fed = { λ a b. (b.outputs ≡ a.outputs) × (b.faults ≡ a.faults)
        × ((mem_inputs b.inputs.items).holds ≡ (mem_inputs a.inputs.items).holds)
        × (b.ready ≡ a.ready) × (b.fresh ≡ a.fresh) };

    ghost unread = { λ p k. ⊥ };

    ghost fed_same = { λ a. (refl, refl, refl, refl, refl) };

    ghost fed_join = { λ a b c p q. (q.0 ∙ p.0, q.1 ∙ p.1, q.2 ∙ p.2, q.3 ∙ p.3, q.4 ∙ p.4) };

    ghost fed_holds = { λ a b p. p.2 };

    ghost fed_counts = { λ a b p. Prim.omega arith };

    ghost left_told = { λ a k bits h. ap length_of h };

    ghost waits_left = { λ a k. Prim.omega arith };

    fn feed_faults(&self) -> u64 {
        0
    }

    fn bit(&mut self, leaf: u32) -> Result<bool, FeedStop> {
        let list = &mut self.inputs[leaf as usize];
        if list.given >= list.bits.len() {
            return Err(FeedStop::Ended);
        }
        let bit = list.bits.get(list.given);
        list.given += 1;
        Ok(bit)
    }

    #[inline(always)]
    fn bits(&mut self, leaf: u32, most: usize, into: &mut Packed) -> Result<usize, FeedStop> {
        let list = &mut self.inputs[leaf as usize];
        if list.given < list.bits.len() {
            let count = most.min(list.bits.len() - list.given);
            into.append_from(&list.bits, list.given, count);
            list.given += count;
            return Ok(count);
        }
        Err(FeedStop::Ended)
    }

    fn left(&self, leaf: u32) -> u64 {
        let list = &self.inputs[leaf as usize];
        list.bits.len().saturating_sub(list.given) as u64
    }

    fn waiting(&self, leaf: u32) -> u64 {
        let list = &self.inputs[leaf as usize];
        list.bits.len().saturating_sub(list.given) as u64
    }
}

impl Drain for MemPort {
    ghost outputs = { λ p. mem_outputs p.outputs.items };

    ghost drain_faults = { λ p. p.faults };

    ghost drained = { λ a b. (b.inputs ≡ a.inputs) × (a.faults ≤ b.faults)
        × ((mem_outputs b.outputs.items).holds ≡ (mem_outputs a.outputs.items).holds)
        × (b.ready ≡ a.ready) × StaysInRoom a.outputs.items b.outputs.items a.faults b.faults };

    ghost room = { λ p k. room_left p.outputs.items k };

    ghost drained_same = { λ a. (refl, Prim.omega arith, refl, refl, stays_same a.outputs.items a.faults) };

    ghost drained_join = { λ a b c p q. (
      q.0 ∙ p.0,
      Prim.omega (arith, p.1, q.1),
      q.2 ∙ p.2,
      q.3 ∙ p.3,
      stays_join a.outputs.items b.outputs.items c.outputs.items a.faults b.faults c.faults q.2 p.4 q.4,
    ) };

    ghost drained_holds = { λ a b p. p.2 };

    ghost drained_counts = { λ a b p. p.1 };

    fn drain_faults(&self) -> u64 {
        self.faults
    }

    fn put(&mut self, leaf: u32, bit: bool) -> Result<(), Failed>
        requires { IsTrue ((mem_outputs self.old.outputs.items).holds leaf) }
        ensures ok { OnOk result (Puts (only leaf bit) (mem_outputs self.old.outputs.items)
            (mem_outputs self.new.outputs.items)) }
        ensures err { OnErr result (PutsPart (only leaf bit) (mem_outputs self.old.outputs.items)
            (mem_outputs self.new.outputs.items)) }
        ensures cause { HasCause self.old.faults self.new.faults result }
        ensures drained { ⟦<MemPort as Drain>⟧.drained self.old self.new }
        ensures put { OnOk result
            (PutInRoom leaf self.old.outputs.items self.old.faults self.new.faults) }
        ensures refused { OnErr result (IsRefused leaf self.old.outputs.items
            self.new.outputs.items self.old.faults self.new.faults) }
    {
        self.fresh = false;
        let list = &mut self.outputs[leaf as usize];
        if list.len() < list.capacity() {
            list.push(bit);
            return Ok(());
        }
        self.faults = self.faults.saturating_add(1);
        Err(Failed)
    }

    fn put_all(&mut self, leaf: u32, bits: &Packed) -> Result<(), Failed>
        requires { IsTrue ((mem_outputs self.old.outputs.items).holds leaf) }
        ensures ok { OnOk result (Puts (for_leaf leaf bits.now.bits)
            (mem_outputs self.old.outputs.items) (mem_outputs self.new.outputs.items)) }
        ensures err { OnErr result (PutsPart (for_leaf leaf bits.now.bits)
            (mem_outputs self.old.outputs.items) (mem_outputs self.new.outputs.items)) }
        ensures cause { HasCause self.old.faults self.new.faults result }
        ensures drained { ⟦<MemPort as Drain>⟧.drained self.old self.new }
        ensures put { OnOk result (PutAllInRoom leaf (length bits.now.bits) self.old.outputs.items
            self.old.faults self.new.faults) }
        ensures refused { OnErr result (IsCutShort leaf bits.now.bits self.old.outputs.items
            self.new.outputs.items self.old.faults self.new.faults) }
    {
        self.fresh = false;
        let put = self.outputs[leaf as usize].append_some(bits, 0);
        if put < bits.len() {
            self.faults = self.faults.saturating_add(1);
            return Err(Failed);
        }
        Ok(())
    }

    fn is_deaf(&self) -> bool {
        false
    }

    fn has_room(&self, leaf: u32, bits: usize) -> bool {
        let list = &self.outputs[leaf as usize];
        bits <= list.capacity() - list.len()
    }

    fn put_in_room(&mut self, leaf: u32, bits: &Packed) {
        self.fresh = false;
        self.outputs[leaf as usize].append_some(bits, 0);
    }
}

impl Port for MemPort {
    ghost fresh = { λ p. p.fresh ≡ true };

    ghost ready = { λ p. p.ready ≡ true };

    ghost refused = { λ p. ⊥ };

    ghost kept = { λ a b. KeepsReady a.faults b.faults a.ready b.ready
        × ((mem_inputs b.inputs.items).holds ≡ (mem_inputs a.inputs.items).holds)
        × ((mem_outputs b.outputs.items).holds ≡ (mem_outputs a.outputs.items).holds)
        × StaysInRoom a.outputs.items b.outputs.items a.faults b.faults };

    ghost kept_same = { λ a. (record { later = Prim.omega arith; ready = λ r. r }, refl, refl, stays_same a.outputs.items a.faults) };

    ghost kept_join = { λ a b c p q. (
      record { later = Prim.omega (arith, p.0.later, q.0.later); ready = λ r. q.0.ready (p.0.ready r) },
      q.1 ∙ p.1,
      q.2 ∙ p.2,
      stays_join a.outputs.items b.outputs.items c.outputs.items a.faults b.faults c.faults q.2 p.3 q.3,
    ) };

    ghost kept_ready = { λ a b p. p.0.ready };

    ghost kept_counts = { λ a b p. (Prim.omega arith, p.0.later) };

    ghost kept_holds = { λ a b p. (p.1, p.2) };

    ghost fed_is_kept = { λ a b p. (
      record { later = Prim.omega (arith, p.1); ready = λ r. p.3 ∙ r },
      p.2,
      ap (λ v. (mem_outputs v.items).holds) p.0,
      stays_alike a.outputs.items b.outputs.items a.faults b.faults (ap (λ v. v.items) p.0) p.1,
    ) };

    ghost drained_is_kept = { λ a b p.
        (record { later = p.1; ready = λ r. p.3 ∙ r }, ap (λ v. (mem_inputs v.items).holds) p.0, p.2, p.4) };

    ghost fed_fresh = { λ a b p r. p.4 ∙ r };

    ghost fed_keeps_outputs = { λ a b p. (ap (λ v. mem_outputs v.items) p.0, p.1) };

    ghost drained_keeps_inputs = { λ a b p. (ap (λ v. mem_inputs v.items) p.0, refl) };

    ghost drained_keeps_waiting = { λ a b p k. ap (λ v. (mem_inputs v.items).left k) p.0 };

    fn start(&mut self) -> Result<(), Failed> {
        self.fresh = false;
        self.ready = true;
        Ok(())
    }
}
