//! An elastic store, and its decision on justification.

ghost use Rattle.std.specs.Prelude.{◌≡◌, ◌<◌, ◌≤◌, ◌+◌, ◌↔◌, [], ◌∷◌, ◌++◌, length, take, drop, replicate, true, nat_le, IsErr, IfOk, OnOk, OnErr};
ghost use Rattle.pdh_shape.specs.OwnNumbers.{threshold, store_size};
ghost use Rattle.pdh_line.specs.Edits.{half_store};

use pdh_packed::{BitRing, Packed, Word};
use pdh_shape::{STORE_SIZE, THRESHOLD};
use std::alloc::{AllocError, Global};
use std::marker::Model;

// The bits that a store's ring has room for: whole words, no fewer than a store may hold.
const RING_SIZE: u32 = 128;

// Half of what a store may hold: by so many bits a slip moves its fill.
const HALF: u32 = STORE_SIZE as u32 / 2;

/// The refusal of a store that holds as many bits as it may.
#[derive(Clone, Copy, Debug, PartialEq, Eq)]
pub struct Overflow;

/// The refusal of a store that holds no bit.
#[derive(Clone, Copy, Debug, PartialEq, Eq)]
pub struct Underflow;

/// The elastic store of one tributary, as positive justification needs it (ITU-T G.742, 5): at most
/// [`STORE_SIZE`] bits, which leave in the order of their arrival. The size and the threshold are
/// this project's own. Only `open` takes memory.
#[derive(Drop)]
pub struct Store {
    ring: BitRing,
}

impl Model for Store {
    ghost use Rattle.std.specs.Prelude.{◌≡◌, ◌≤◌, Bool, List, length};
    ghost use Rattle.pdh_shape.specs.OwnNumbers.{store_size};

    // the bits, from the oldest to the newest
    ghost Value = { List Bool };

    ghost view = { λ s. s.ring.bits };

    ghost invariant = { λ s. (s.ring.capacity ≡ 128) × (length s.ring.bits ≤ store_size) };
}

// As many ones as an underflow puts into a store that slips.
fn ones() -> Word
    ensures { result ≡ replicate half_store true }
{
    Word::of((1 << HALF) - 1, HALF)
}

impl Store {
    /// An empty store with room for its bits, or the refusal of memory for it.
    pub fn open(alloc: Global) -> Result<Store, AllocError>
        ensures { IfOk result (λ store. store ≡ []) }
    {
        let ring = BitRing::open(alloc, RING_SIZE)?;
        Ok(Store { ring })
    }

    /// Appends a bit that arrives, or refuses it where as many are held as may be, and then keeps them all.
    pub fn arrive(&mut self, bit: bool) -> Result<(), Overflow>
        ensures full { IsErr result ↔ (length self.old ≡ store_size) }
        ensures room { OnOk result (length self.old < store_size) }
        ensures ok { OnOk result (self.new ≡ self.old ++ bit ∷ []) }
        ensures err { OnErr result (self.new ≡ self.old) }
    {
        if self.fill() as usize >= STORE_SIZE {
            return Err(Overflow);
        }
        self.ring.push(bit);
        Ok(())
    }

    /// Takes out the oldest bit, or refuses where no bit is held.
    pub fn leave(&mut self) -> Result<bool, Underflow>
        ensures empty { IsErr result ↔ (self.old ≡ []) }
        ensures ok { IfOk result (λ bit. self.old ≡ bit ∷ self.new) }
        ensures err { OnErr result (self.new ≡ self.old) }
    {
        let fill = self.fill();
        if fill == 0 {
            return Err(Underflow);
        }
        let oldest = self.ring.get(fill - 1);
        self.ring.drop_oldest(1);
        Ok(oldest)
    }

    /// Takes out all bits and appends them to a list, which has room for them.
    pub fn move_to(&mut self, list: &mut Packed)
        requires room { length list.old.bits + store_size ≤ list.old.capacity }
        ensures moved { list.new ≡ record list.old { bits = list.old.bits ++ self.old } }
        ensures few { length self.old ≤ store_size }
        ensures empty { self.new ≡ [] }
    {
        let fill = self.fill();
        self.ring.append_to(0, fill, list);
        self.ring.clear();
    }

    /// Appends bits of a list, so many from a place on, which the store has room for.
    pub fn put_from(&mut self, list: &Packed, place: usize, count: usize)
        requires within { place + count ≤ length list.now.bits }
        requires room { length self.old + count ≤ store_size }
        ensures { self.new ≡ self.old ++ take count (drop place list.now.bits) }
    {
        self.ring.append_from(list, place, count);
    }

    /// Drops the oldest half of a full store's bits.
    pub fn drop_half(&mut self)
        requires { length self.old ≡ store_size }
        ensures { self.new ≡ drop half_store self.old }
    {
        self.ring.drop_oldest(HALF);
    }

    /// Puts ones into an empty store, half of what it may hold.
    pub fn add_half(&mut self)
        requires { self.old ≡ [] }
        ensures { self.new ≡ replicate half_store true }
    {
        self.ring.append(ones());
    }

    /// How many bits are held, from 0 to [`STORE_SIZE`].
    pub fn fill(&self) -> u32
        ensures count { result ≡ length self.now }
        ensures bounded { length self.now ≤ store_size }
    {
        self.ring.held()
    }

    /// Whether a frame that begins now carries an additional bit, so that its justifiable slot isn't
    /// justified (ITU-T G.742, 5): exactly where as many bits as [`THRESHOLD`] says or more are held.
    pub fn carries_more(&self) -> bool
        ensures { result ≡ nat_le threshold (length self.now) }
    {
        self.fill() >= THRESHOLD
    }
}
