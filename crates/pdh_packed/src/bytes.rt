//! Packed lists from bytes, and back.

ghost use Rattle.std.specs.Prelude.{◌≡◌, ◌+◌, ◌-◌, ◌*◌, ◌/◌, ◌≤◌, ◌++◌, length, min, take, drop, IfOk};
ghost use Rattle.pdh_bits.specs.Bits.{bits_of, bytes_of};

use crate::packed::Packed;
use crate::word::Word;
use std::alloc::{AllocError, Global};

// The bits of eight bytes.
fn word_of(bytes: &[u8]) -> Word
    requires { length bytes.now ≡ 8 }
    ensures { result ≡ bits_of bytes.now }
{
    let number = u64::from_be_bytes([
        bytes[0], bytes[1], bytes[2], bytes[3], bytes[4], bytes[5], bytes[6], bytes[7],
    ]);
    Word::of(number, 64)
}

impl Packed {
    /// The bits of bytes, the most significant bit of each byte first, with room for no more; or the refusal of memory.
    pub fn of_bytes(alloc: Global, bytes: &[u8]) -> Result<Packed, AllocError>
        ensures { IfOk result (λ list. list ≡ record { capacity = 8 * length bytes.now; bits = bits_of bytes.now }) }
    {
        let Some(capacity) = bytes.len().checked_mul(8) else {
            return Err(AllocError);
        };
        let mut list = Packed::open(alloc, capacity)?;
        list.append_bytes(bytes);
        Ok(list)
    }

    /// The whole bytes of the bits, or the refusal of memory. Up to seven last bits that fill no byte are left off.
    pub fn to_bytes(&self, alloc: Global) -> Result<Vec<u8>, AllocError>
        ensures { IfOk result (λ bytes. bytes.items ≡ bytes_of self.now.bits) }
    {
        let mut bytes = vec![in alloc; 0u8; self.len() / 8]?;
        self.write_bytes(0, &mut bytes);
        Ok(bytes)
    }

    /// Appends the bits of bytes, for which there is room, the most significant bit of each byte first.
    pub fn append_bytes(&mut self, bytes: &[u8])
        requires { length self.old.bits + 8 * length bytes.now ≤ self.old.capacity }
        ensures { self.new ≡ record self.old { bits = self.old.bits ++ bits_of bytes.now } }
    {
        let mut done = 0;
        while bytes.len() - done >= 8 {
            self.append_whole(word_of(&bytes[done..done + 8]).number());
            done += 8;
        }
        self.append_few(&bytes[done..]);
    }

    // The same for bytes that don't fill a word.
    fn append_few(&mut self, bytes: &[u8])
        requires { length self.old.bits + 8 * length bytes.now ≤ self.old.capacity }
        ensures { self.new ≡ record self.old { bits = self.old.bits ++ bits_of bytes.now } }
    {
        for byte in bytes {
            self.append(Word::of(u64::from(*byte), 8));
        }
    }

    /// Writes as many whole bytes of the bits from a place on as there are and fit, and answers their number.
    pub fn write_bytes(&self, place: usize, into: &mut [u8]) -> usize
        ensures count { result ≡ min ((length self.now.bits - place) / 8) (length into.old) }
        ensures written { into.new ≡ take result (bytes_of (drop place self.now.bits)) ++ drop result into.old }
    {
        let count = (self.len().saturating_sub(place) / 8).min(into.len());
        let bytes = &mut into[..count];
        let done = self.write_words(place, bytes);
        self.write_few(place, done, bytes);
        count
    }

    // Writes the bytes of the bits from a place on eight at a time, and answers how many it wrote.
    fn write_words(&self, place: usize, into: &mut [u8]) -> usize
        requires { 8 * length into.old ≤ length self.now.bits - place }
        ensures count { result ≤ length into.old }
        ensures written { into.new ≡ take result (bytes_of (drop place self.now.bits)) ++ drop result into.old }
    {
        // a place fits, since a length does
        let _fits = self.len();
        let mut done = 0;
        while into.len() - done >= 8 {
            self.write_word(place + 8 * done, &mut into[done..done + 8]);
            done += 8;
        }
        done
    }

    // Writes the eight bytes of the bits from a place on.
    fn write_word(&self, place: usize, into: &mut [u8])
        requires eight { length into.old ≡ 8 }
        requires within { place + 64 ≤ length self.now.bits }
        ensures { into.new ≡ bytes_of (take 64 (drop place self.now.bits)) }
    {
        into.copy_from_slice(&self.read_whole(place).to_be_bytes());
    }

    // Writes the bytes of the bits from a place on after the first, so many, that are written.
    fn write_few(&self, place: usize, done: usize, into: &mut [u8])
        requires begun { done ≤ length into.old }
        requires within { 8 * length into.old ≤ length self.now.bits - place }
        requires written { take done into.old ≡ take done (bytes_of (drop place self.now.bits)) }
        ensures { into.new ≡ take (length into.old) (bytes_of (drop place self.now.bits)) }
    {
        // a place fits, since a length does
        let _fits = self.len();
        for index in done..into.len() {
            into[index] = self.read(place + 8 * index, 8).number() as u8;
        }
    }
}
