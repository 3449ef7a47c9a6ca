//! Pieces of a frame, put together from a column for each tributary and the overhead bits.

ghost use Rattle.std.specs.Prelude.{◌≡◌, ◌<◌, ◌≤◌, ◌⊎◌, ℕ, ◌+◌, ◌-◌, ◌*◌, ◌%◌, ◌==◌, true, false, [], ◌++◌, length, map, take, drop, replicate, All};
ghost use Rattle.std.specs.List.{slice_index_or};
ghost use Rattle.pdh_shape.specs.Payload.{is_payload as is_payload_role, payload_before, payload_ones};
ghost use Rattle.pdh_shape.specs.Tributary.{reads_from, reads_below};
ghost use Rattle.pdh_packed.specs.Gaining.{gained, IsGrown};
ghost use Rattle.pdh_runs.specs.Pieces.{turn, overhead_before, rows, slot_bits, FillsColumn, Assembled};

use crate::layout::Layout;
use crate::turns::{append_turns, carrying};
use pdh_interleaving::interleave;
use pdh_packed::{Packed, Word};
use pdh_shape::Shape;

// Appends a zero where a list has one bit fewer than these.
fn fill_up(list: &mut Packed, len: usize)
    requires short { len ≤ length list.old.bits + 1 }
    requires room { len ≤ list.old.capacity }
    ensures { list.new ≡ record list.old { bits = list.old.bits ++ replicate (len - length list.old.bits) false } }
{
    if list.len() < len {
        list.push(false);
    }
}

// Appends bits of a list, so many from a place on, but for the last, at most 64, which it hands back. A stretch of payload slots of a
// DS3 fills one word and not two.
#[inline(always)]
fn append_front(list: &Packed, place: usize, count: usize, into: &mut Packed) -> Word
    requires within { place + count ≤ length list.now.bits }
    requires room { length into.old.bits + count ≤ into.old.capacity }
    ensures bits { into.new.bits ++ result ≡ into.old.bits ++ take count (drop place list.now.bits) }
    ensures capacity { into.new.capacity ≡ into.old.capacity }
{
    // a place fits, since a length does
    let _fits = list.len();
    if count <= 64 {
        return list.read(place, count as u32);
    }
    if count < 128 {
        into.append_whole(list.read_whole(place));
        return list.read(place + 64, (count - 64) as u32);
    }
    into.append_from(list, place, count);
    Word::empty()
}

// Appends bits of a list, so many from a place on, behind those that are held back, and holds the last back.
#[inline(always)]
fn append_behind(list: &Packed, place: usize, count: usize, held: &mut Word, into: &mut Packed)
    requires within { place + count ≤ length list.now.bits }
    requires room { length (into.old.bits ++ held.old) + count ≤ into.old.capacity }
    ensures bits { into.new.bits ++ held.new ≡ (into.old.bits ++ held.old) ++ take count (drop place list.now.bits) }
    ensures capacity { into.new.capacity ≡ into.old.capacity }
{
    if count <= (64 - held.len()) as usize {
        *held = held.join(list.read(place, count as u32));
        return;
    }
    into.append(*held);
    *held = append_front(list, place, count, into);
}

impl<S: Shape> Layout<S> {
    /// How many slots of a piece of a frame carry a bit of a tributary, in a frame that carries an
    /// additional bit of it or doesn't.
    pub fn carried(&self, trib: u8, more: bool, first: u32, len: usize) -> usize
        requires known { trib < S.TRIBS }
        requires inside { first + len ≤ S.LEN }
        ensures { reads_below S.shape trib more first + result
            ≡ reads_below S.shape trib more (first + len) }
    {
        let turns = self.turns(trib, more, first, len);
        match turns.empty {
            None => turns.count,
            Some(_) => turns.count - 1,
        }
    }

    /// Fills a column with the bits that a tributary has in a piece of a frame, from its queue on, in a
    /// frame that carries an additional bit of it or doesn't. The column has a bit for each turn that
    /// the piece touches.
    #[inline(always)]
    pub fn fill_column(
        &self,
        trib: u8,
        more: bool,
        first: u32,
        len: usize,
        queue: &Packed,
        column: &mut Packed,
    )
        requires known { trib < S.TRIBS }
        requires inside { first + len ≤ S.LEN }
        requires held { reads_below S.shape trib more (first + len)
            ≤ reads_below S.shape trib more first + length queue.now.bits }
        requires room { S.LOW + 1 ≤ column.old.capacity }
        ensures capacity { column.new.capacity ≡ column.old.capacity }
        ensures rows { length column.new.bits ≡ rows S.shape first len }
        ensures fills { FillsColumn S.shape trib more first len queue.now.bits column.new.bits }
    {
        let _carried = self.fill_column_at(trib, more, first, len, queue, 0, column);
    }

    /// The same from a place of the queue on; answers how many of its bits the piece carries.
    #[inline(always)]
    pub fn fill_column_at(
        &self,
        trib: u8,
        more: bool,
        first: u32,
        len: usize,
        queue: &Packed,
        at: usize,
        column: &mut Packed,
    ) -> usize
        requires known { trib < S.TRIBS }
        requires inside { first + len ≤ S.LEN }
        requires within { at ≤ length queue.now.bits }
        requires held { reads_below S.shape trib more (first + len)
            ≤ reads_below S.shape trib more first + length (drop at queue.now.bits) }
        requires room { S.LOW + 1 ≤ column.old.capacity }
        ensures capacity { column.new.capacity ≡ column.old.capacity }
        ensures rows { length column.new.bits ≡ rows S.shape first len }
        ensures fills { FillsColumn S.shape trib more first len (drop at queue.now.bits) column.new.bits }
        ensures carried { reads_below S.shape trib more first + result
            ≡ reads_below S.shape trib more (first + len) }
    {
        let turns = self.turns(trib, more, first, len);
        column.clear();
        fill_up(column, turns.from - self.turn(first));
        append_turns(&turns, S::inverted(trib), queue, at, column);
        fill_up(column, self.rows(first, len));
        carrying(&turns)
    }

    /// Appends a piece of a frame, which is put together from a column of each tributary and from the
    /// bits of its overhead slots. Answers whether its payload slots hold an odd number of ones. What
    /// is in `payload` is lost.
    pub fn assemble(
        &self,
        first: u32,
        len: usize,
        overhead: &Packed,
        columns: &[Packed],
        payload: &mut Packed,
        into: &mut Packed,
    ) -> bool
        requires inside { first + len ≤ S.LEN }
        requires tributaries { length columns.now ≡ S.TRIBS }
        requires rows { All (λ column. length column.bits ≡ rows S.shape first len) columns.now }
        requires overhead { overhead_before S.shape (first + len)
            ≡ overhead_before S.shape first + length overhead.now.bits }
        requires scratch { S.TRIBS * (S.LOW + 1) ≤ payload.old.capacity }
        requires room { length into.old.bits + len ≤ into.old.capacity }
        ensures scratch { payload.new.capacity ≡ payload.old.capacity }
        ensures grown { IsGrown into.old into.new len }
        ensures assembled { Assembled S.shape first len overhead.now.bits (map (λ c. c.bits) columns.now) (gained into.old into.new) }
        ensures odd { result ≡ (payload_ones S.shape first (gained into.old into.new) % 2 == 1) }
    {
        if matches!(columns.len(), 4 | 7) {
            self.assemble_stretches(first, len, overhead, columns, payload, into)
        } else {
            self.assemble_slots(first, len, overhead, columns, into)
        }
    }

    // The same for four or seven tributaries, by the stretches of payload slots and of the others.
    fn assemble_stretches(
        &self,
        first: u32,
        len: usize,
        overhead: &Packed,
        columns: &[Packed],
        payload: &mut Packed,
        into: &mut Packed,
    ) -> bool
        requires tributaries { (length columns.now ≡ 4) ⊎ (length columns.now ≡ 7) }
        requires known { length columns.now ≡ S.TRIBS }
        requires inside { first + len ≤ S.LEN }
        requires rows { All (λ column. length column.bits ≡ rows S.shape first len) columns.now }
        requires overhead { overhead_before S.shape (first + len)
            ≡ overhead_before S.shape first + length overhead.now.bits }
        requires scratch { S.TRIBS * (S.LOW + 1) ≤ payload.old.capacity }
        requires room { length into.old.bits + len ≤ into.old.capacity }
        ensures scratch { payload.new.capacity ≡ payload.old.capacity }
        ensures grown { IsGrown into.old into.new len }
        ensures assembled { Assembled S.shape first len overhead.now.bits (map (λ c. c.bits) columns.now) (gained into.old into.new) }
        ensures odd { result ≡ (payload_ones S.shape first (gained into.old into.new) % 2 == 1) }
    {
        payload.clear();
        interleave(columns, 0, self.rows(first, len), payload);
        let skipped = self.turn(first) * usize::from(S::TRIBS);
        self.append_stretches(first, len, skipped, payload, overhead, into);
        let begun = self.payload_before(first);
        let ended = self.payload_before(first + len as u32);
        payload.is_odd(begun - skipped, ended - begun)
    }

    // Appends the bits of a piece of a frame from its payload and its overhead, where so many of the
    // frame's payload slots stand before the first of the payload.
    fn append_stretches(
        &self,
        first: u32,
        len: usize,
        skipped: usize,
        payload: &Packed,
        overhead: &Packed,
        into: &mut Packed,
    )
        requires inside { first + len ≤ S.LEN }
        requires skipped { skipped ≤ payload_before S.shape first }
        requires payload { payload_before S.shape (first + len) ≤ skipped + length payload.now.bits }
        requires overhead { overhead_before S.shape (first + len)
            ≡ overhead_before S.shape first + length overhead.now.bits }
        requires room { length into.old.bits + len ≤ into.old.capacity }
        ensures { into.new ≡ record into.old { bits = into.old.bits ++ slot_bits S.shape first skipped payload.now.bits overhead.now.bits len } }
    {
        let passed = self.overhead_before(first);
        let end = first + len as u32;
        let mut held = Word::empty();
        let mut slot = first;
        while slot < end {
            let next = self.end(slot).min(end);
            let count = (next - slot) as usize;
            if self.is_payload(slot) {
                let place = self.payload_before(slot) - skipped;
                append_behind(payload, place, count, &mut held, into);
            } else {
                let place = self.overhead_before(slot) - passed;
                append_behind(overhead, place, count, &mut held, into);
            }
            slot = next;
        }
        into.append(held);
    }

    // The same for any number of tributaries, slot by slot.
    fn assemble_slots(
        &self,
        first: u32,
        len: usize,
        overhead: &Packed,
        columns: &[Packed],
        into: &mut Packed,
    ) -> bool
        requires inside { first + len ≤ S.LEN }
        requires tributaries { length columns.now ≡ S.TRIBS }
        requires rows { All (λ column. length column.bits ≡ rows S.shape first len) columns.now }
        requires overhead { overhead_before S.shape (first + len)
            ≡ overhead_before S.shape first + length overhead.now.bits }
        requires room { length into.old.bits + len ≤ into.old.capacity }
        ensures grown { IsGrown into.old into.new len }
        ensures assembled { Assembled S.shape first len overhead.now.bits (map (λ c. c.bits) columns.now) (gained into.old into.new) }
        ensures odd { result ≡ (payload_ones S.shape first (gained into.old into.new) % 2 == 1) }
    {
        let mut odd = false;
        for slot in first..first + len as u32 {
            let bit = self.bit(slot, first, overhead, columns);
            into.push(bit);
            odd ^= bit & self.is_payload(slot);
        }
        odd
    }
    // The bit of a slot of a piece of a frame.
    fn bit(&self, slot: u32, first: u32, overhead: &Packed, columns: &[Packed]) -> bool
        requires inside { slot < S.LEN }
        requires begun { first ≤ slot }
        requires tributaries { length columns.now ≡ S.TRIBS }
        requires rows { All (λ column. rows S.shape first (slot + 1 - first) ≤ length column.bits) columns.now }
        requires overhead { overhead_before S.shape (slot + 1) ≤ overhead_before S.shape first + length overhead.now.bits }
        ensures payload { (j : ℕ) → reads_from j true (S.shape.role slot) ≡ true
            → result ≡ slice_index_or (slice_index_or (map (λ c. c.bits) columns.now) j []) (turn S.shape slot - turn S.shape first) false }
        ensures others { is_payload_role (S.shape.role slot) ≡ false
            → result ≡ slice_index_or overhead.now.bits (overhead_before S.shape slot - overhead_before S.shape first) false }
    {
        if self.is_payload(slot) {
            let place = self.payload_before(slot);
            let tribs = usize::from(S::TRIBS);
            columns[place % tribs].get(place / tribs - self.turn(first))
        } else {
            overhead.get(self.overhead_before(slot) - self.overhead_before(first))
        }
    }
}
