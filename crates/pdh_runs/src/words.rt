//! Where each word of a frame's payload stands, and the words read. A word has so many bits that each tributary has as many of
//! them.

ghost use Rattle.std.specs.Prelude.{◌≡◌, ◌<◌, ◌≤◌, ℕ, ◌+◌, false, true, length, get_or, All, IfSome, IfOk};
ghost use Rattle.std.specs.List.{slice_index_or};
ghost use Rattle.pdh_shape.specs.Payload.{is_payload as is_payload_role, payload_before};
ghost use Rattle.pdh_packed.specs.Words.{low_bits};
ghost use Rattle.pdh_runs.specs.Tables.{AreRoles, payload_counts, AreEnds};
ghost use Rattle.pdh_runs.specs.WordTables.{word_size, slot_in, IsParted, IsWordAt, AreWords};

use crate::run::is_payload;
use pdh_packed::Packed;
use pdh_shape::{Role, Shape};
use std::alloc::{AllocError, Global};

/// Where a word of the payload stands in a frame: so many of its bits from one slot on, and the others from another on.
#[derive(Drop)]
pub struct WordAt {
    /// The slot of the first bit.
    pub slot: u16,
    /// How many bits stand there one behind the other: 64, or fewer where others follow.
    pub first: u8,
    /// The slot of the bit behind those.
    pub next: u16,
}

/// How many bits a word of the payload of so many tributaries has.
pub const fn word_size(tribs: u8) -> u16
    ensures { result ≡ word_size tribs }
{
    if tribs == 7 { 56 } else { 64 }
}

/// Where the words of the payload stand, in order, if each stands in at most two stretches of payload slots; or the refusal of
/// memory for them.
pub fn words<S: Shape>(
    alloc: Global,
    roles: &[Role],
    payload: &[u16],
    ends: &[u16],
) -> Result<Option<Vec<WordAt>>, AllocError>
    requires roles { AreRoles S.shape roles.now }
    requires payload { payload.now ≡ payload_counts S.shape }
    requires ends { AreEnds S.shape ends.now }
    ensures { IfOk result (λ words. IfSome words (λ words. AreWords S.shape words.items)) }
{
    let size = word_size(S::TRIBS);
    let mut words = Vec::new(alloc);
    for slot in 0..S::LEN {
        let place = usize::from(payload[slot as usize]);
        if is_payload(roles[slot as usize]) && place == usize::from(size) * words.len() {
            let Some(word) = word_from::<S>(ends, slot as u16, size) else {
                return Ok(None);
            };
            words.push(word)?;
        }
    }
    Ok(Some(words))
}

// Where a word stands whose first bit stands in a payload slot, if it stands in at most two stretches.
fn word_from<S: Shape>(ends: &[u16], slot: u16, size: u16) -> Option<WordAt>
    requires ends { AreEnds S.shape ends.now }
    requires inside { slot < S.LEN }
    requires payload { is_payload_role (S.shape.role slot) ≡ true }
    requires small { size ≤ 64 }
    ensures { IfSome result (λ at. IsWordAt S.shape (payload_before S.shape slot) size at) }
{
    let len = S::LEN as u16;
    let end = ends[slot as usize];
    let first = end - slot;
    if first >= size || end == len {
        return Some(WordAt {
            slot,
            first: 64,
            next: 0,
        });
    }
    let next = ends[end as usize];
    if next < len && ends[next as usize] < len.min(next + (size - first)) {
        return None;
    }
    Some(WordAt {
        slot,
        first: first as u8,
        next,
    })
}

impl WordAt {
    /// The bits of the word in a frame, as far as the payload has them.
    #[inline(always)]
    pub fn read(&self, frame: &Packed) -> u64
        requires { IsParted self.now }
        ensures { (k : ℕ) → k < 64 → get_or (low_bits 64 result) k false ≡ slice_index_or frame.now.bits (slot_in self.now k) false }
    {
        let front = frame.read_filled(usize::from(self.slot));
        if self.first == 64 {
            return front;
        }
        let first = u32::from(self.first);
        let behind = frame.read_filled(usize::from(self.next));
        ((front >> (64 - first)) << (64 - first)).wrapping_add(behind >> first)
    }
}

/// Reads words of a frame's payload, so many from one on.
#[inline(always)]
pub fn read_words(words: &[WordAt], from: usize, count: usize, frame: &Packed, into: &mut [u64])
    requires known { from + count ≤ length words.now }
    requires room { count ≤ length into.old }
    requires parted { All IsParted words.now }
    ensures room { length into.new ≡ length into.old }
    ensures read { (i k : ℕ) (at : WordAt) → i < count → k < 64
        → get_or (low_bits 64 (get_or into.new i 0)) k false ≡ slice_index_or frame.now.bits (slot_in (slice_index_or words.now (from + i) at) k) false }
{
    for index in 0..count {
        into[index] = words[from + index].read(frame);
    }
}
