//! The far store of one tributary.

ghost use Rattle.std.specs.Prelude.{◌≡◌, ◌+◌, ◌-◌, ◌≤◌, ◌++◌, ◌<◌, nat_le, cond, length, take, drop, replicate, true, IfOk};
ghost use Rattle.std.specs.Prelude.{Bool, List};
ghost use Rattle.pdh_shape.specs.OwnNumbers.{threshold};
ghost use Rattle.pdh_desync.specs.FarStore.{FarPiece, came as came_in};
ghost use Rattle.pdh_desync.specs.FarHolds.{CanPass, FarHolds, FarPasses};

use pdh_packed::Packed;
use pdh_shape::{Shape, THRESHOLD};
use std::alloc::{AllocError, Global};
use std::marker::Model;

/// The far store of one tributary, which takes the bits of a whole piece and gives out those that are read in it. Only `open`
/// takes memory.
#[derive(Drop)]
pub struct FarStore {
    held: Packed,
    // the ones with which it begins that were not read
    ones: usize,
    // the bits that were held and came, of which a piece's reads are the first
    moving: Packed,
}

impl Model for FarStore {
    ghost use Rattle.std.specs.Prelude.{◌≡◌, ◌+◌, ◌≤◌, length};
    ghost use Rattle.pdh_desync.specs.Held.{Held};
    ghost use Rattle.pdh_shape.specs.OwnNumbers.{threshold};

    ghost Value = { Held };

    ghost view = { λ s. record { bits = s.held.bits; ones = s.ones; room = s.moving.capacity } };

    ghost invariant = { λ s. (s.held.capacity ≡ threshold) × (s.ones ≤ threshold) };
}

// How many bits are read, at least so many and one more or not.
fn reads_of(least: u32, more: bool) -> usize
    ensures { result ≡ least + cond more 1 0 }
{
    if more {
        least as usize + 1
    } else {
        least as usize
    }
}

impl FarStore {
    /// One that holds ones, with room for pieces of so many bits; or it finds no memory.
    pub fn open(alloc: Global, most: u32) -> Result<FarStore, AllocError>
        ensures { IfOk result (λ s. s ≡ record { bits = replicate threshold true; ones = threshold; room = threshold + most }) }
    {
        let mut held = Packed::open(alloc, THRESHOLD as usize)?;
        for _ in 0..THRESHOLD {
            held.push(true);
        }
        let moving = Packed::open(alloc, THRESHOLD as usize + most as usize)?;
        Ok(FarStore {
            held,
            ones: THRESHOLD as usize,
            moving,
        })
    }

    /// Takes the bits of a piece, and gives out in place of others those that are read in it: so many at least, and one more
    /// where it answers so. The ones with which it began aren't given out.
    #[tactic(auto, using(crate::proofs::PassLaws::reads_without))]
    pub fn pass(&mut self, came: &Packed, least: u32, out: &mut Packed) -> bool
        requires enough { least + 1 ≤ length self.old.bits + length came.now.bits }
        requires few { length self.old.bits + length came.now.bits ≤ least + cond (nat_le threshold (length self.old.bits)) 1 0 + threshold }
        requires room { length self.old.bits + length came.now.bits ≤ self.old.room }
        requires out { least + 1 ≤ out.old.capacity }
        ensures more { result ≡ nat_le threshold (length self.old.bits) }
        ensures held { self.new.bits ≡ drop (least + cond result 1 0) (self.old.bits ++ came.now.bits) }
        ensures ones { self.new.ones ≡ self.old.ones - (least + cond result 1 0) }
        ensures room { self.new.room ≡ self.old.room }
        ensures out { out.new ≡ record out.old { bits = drop self.old.ones (take (least + cond result 1 0) (self.old.bits ++ came.now.bits)) } }
    {
        let more = self.held.len() >= THRESHOLD as usize;
        let reads = reads_of(least, more);
        self.moving.clear();
        self.moving.append_all(&self.held);
        self.moving.append_all(came);
        let ones = self.ones.min(reads);
        out.clear();
        out.append_from(&self.moving, ones, reads - ones);
        self.ones -= ones;
        self.held.clear();
        self.held
            .append_from(&self.moving, reads, self.moving.len() - reads);
        more
    }

    /// How many bits it holds.
    pub fn fill(&self) -> usize
        ensures count { result ≡ length self.now.bits }
        ensures few { result ≤ threshold }
    {
        self.held.len()
    }
}

/// Takes the bits that a piece brings to a tributary, gives out in place of others those that come out by it, and answers the
/// piece's mark: whether an additional bit was read in it.
pub fn pass_piece<S: Shape>(store: &mut FarStore, trib: u8, bits: &Packed, out: &mut Packed) -> bool
    requires known { trib < S.TRIBS }
    requires holds { CanPass S.shape trib (length bits.now.bits) store.old }
    requires out { S.LOW + 1 ≤ out.old.capacity }
    ensures passes { (pieces : List FarPiece) (got : List Bool) (piece : FarPiece) → FarHolds S.shape trib pieces got store.old
        → length bits.now.bits ≡ came_in S.shape trib piece
        → FarPasses S.shape trib pieces got piece bits.now.bits store.new out.new.bits result }
    ensures out { out.new.capacity ≡ out.old.capacity }
{
    store.pass(bits, S::LOW, out)
}
