//! Claims on elastic stores.

ghost use Rattle.std.specs.Prelude.{◌≡◌, ◌<◌, ◌≤◌, ◌+◌, [], ◌∷◌, ◌++◌, length, take, drop, replicate, true, IsErr, IsOk, IfOk};
ghost use Rattle.pdh_shape.specs.OwnNumbers.{threshold, store_size};
ghost use Rattle.pdh_line.specs.Edits.{half_store};

use pdh_packed::Packed;
use pdh_store::{Overflow, Store, Underflow};
use std::alloc::{AllocError, Global};

/// What is added to an empty store is ones, half of what it may hold.
pub fn adds_zeros(store: &mut Store)
    requires { store.old ≡ [] }
    ensures { store.new ≡ replicate half_store true }
{
    store.add_half();
}

/// What is dropped of a full store is the oldest half of its bits.
pub fn drops_the_newest_half(store: &mut Store)
    requires { length store.old ≡ store_size }
    ensures { store.new ≡ drop half_store store.old }
{
    store.drop_half();
}

/// No bit leaves an empty store.
pub fn empty_store_answers_a_bit(store: &mut Store) -> Result<bool, Underflow>
    requires { store.old ≡ [] }
    ensures { IsErr result }
{
    store.leave()
}

/// The fill of an empty store is 0.
pub fn fill_counts_the_room(store: &Store) -> u32
    requires { store.now ≡ [] }
    ensures { result ≡ 0 }
{
    store.fill()
}

/// A full store refuses a bit and keeps its own.
pub fn full_store_drops_its_oldest(store: &mut Store, bit: bool) -> Result<(), Overflow>
    requires { length store.old ≡ store_size }
    ensures refuses { IsErr result }
    ensures keeps { store.new ≡ store.old }
{
    store.arrive(bit)
}

/// All bits of a list from a place on, as many as are asked for, are put into a store.
pub fn half_of_the_bits_put(store: &mut Store, list: &Packed, place: usize, count: usize)
    requires within { place + count ≤ length list.now.bits }
    requires room { length store.old + count ≤ store_size }
    ensures { store.new ≡ store.old ++ take count (drop place list.now.bits) }
{
    store.put_from(list, place, count);
}

/// All bits of a store are taken out of it and appended to a list.
pub fn half_of_the_bits_taken(store: &mut Store, list: &mut Packed)
    requires { length list.old.bits + store_size ≤ list.old.capacity }
    ensures taken { list.new.bits ≡ list.old.bits ++ store.old }
    ensures none { store.new ≡ [] }
{
    store.move_to(list);
}

/// The bit that leaves a store is its oldest.
pub fn leaves_the_newest(store: &mut Store) -> Result<bool, Underflow>
    ensures { IfOk result (λ bit. store.old ≡ bit ∷ store.new) }
{
    store.leave()
}

/// A frame carries an additional bit where exactly as many bits are held as the threshold says.
pub fn more_only_above_the_threshold(store: &Store) -> bool
    requires { length store.now ≡ threshold }
    ensures { result ≡ true }
{
    store.carries_more()
}

/// A new store is empty.
pub fn opens_with_a_bit(alloc: Global) -> Result<Store, AllocError>
    ensures { IfOk result (λ store. store ≡ []) }
{
    Store::open(alloc)
}

/// A store that isn't full takes a bit, as its newest.
pub fn refuses_one_bit_early(store: &mut Store, bit: bool) -> Result<(), Overflow>
    requires { length store.old < store_size }
    ensures takes { IsOk result }
    ensures last { store.new ≡ store.old ++ bit ∷ [] }
{
    store.arrive(bit)
}
