//! What a layout reads of a received frame: its justification control and its payload.

ghost use Rattle.std.specs.Prelude.{◌≡◌, ◌<◌, ◌≤◌, ◌+◌, ◌++◌, ◌%◌, ◌==◌, [], false, length, count_by, All};
ghost use Rattle.std.specs.List.{slice_index_or};
ghost use Rattle.pdh_shape.specs.Tributary.{carries_more as carries_more_in, stripped};
ghost use Rattle.pdh_shape.specs.Payload.{payload_ones};
ghost use Rattle.pdh_runs.specs.Columns.{trib_bits};
ghost use Rattle.pdh_runs.specs.Taking.{HasColumns};

use crate::dealing::{deal_by_four, deal_by_seven};
use crate::layout::Layout;
use pdh_packed::Packed;
use pdh_shape::{Shape, majority};

// How many of these slots of a frame are 1.
fn count_ones(slots: &[u16], frame: &Packed) -> usize
    requires { All (λ slot. slot < length frame.now.bits) slots.now }
    ensures { result ≡ count_by (λ slot. slice_index_or frame.now.bits slot false) slots.now }
{
    let mut ones = 0usize;
    for slot in slots {
        ones += usize::from(frame.get(*slot as usize));
    }
    ones
}

impl<S: Shape> Layout<S> {
    /// Whether a frame carries an additional bit of a tributary (ITU-T G.742, 5).
    pub fn carries_more(&self, trib: u8, frame: &Packed) -> bool
        requires known { trib < S.TRIBS }
        requires whole { length frame.now.bits ≡ S.LEN }
        ensures { result ≡ carries_more_in S.shape trib frame.now.bits }
    {
        let copies = S::COPIES;
        !majority(
            count_ones(&self.tributary(trib).control, frame) as u8,
            copies,
        )
    }

    /// Appends the bits that a frame has in the information slots and the justifiable slot of a
    /// tributary, slot by slot.
    pub(crate) fn append_trib(&self, trib: u8, frame: &Packed, into: &mut Packed)
        requires known { trib < S.TRIBS }
        requires whole { length frame.now.bits ≡ S.LEN }
        requires room { length into.old.bits + (S.LOW + 1) ≤ into.old.capacity }
        ensures { into.new ≡ record into.old { bits = into.old.bits ++ trib_bits S.shape trib frame.now.bits } }
    {
        for slot in 0..S::LEN {
            if S::role(slot).reads(trib, true) {
                into.push(frame.get(slot as usize));
            }
        }
    }

    // The same for each tributary, behind what its list has.
    fn append_tribs(&self, frame: &Packed, columns: &mut [Packed])
        requires whole { length frame.now.bits ≡ S.LEN }
        requires tributaries { length columns.old ≡ S.TRIBS }
        requires room { All (λ column. S.LOW + 1 ≤ column.capacity) columns.old }
        requires empty { All (λ column. column.bits ≡ []) columns.old }
        ensures { HasColumns S.shape (λ j. trib_bits S.shape j frame.now.bits) columns.new }
    {
        for trib in 0..S::TRIBS {
            self.append_trib(trib, frame, &mut columns[trib as usize]);
        }
    }

    /// Fills an empty column for each tributary with the bits that a frame has in its information slots
    /// and its justifiable slot.
    pub(crate) fn fill_columns(&self, frame: &Packed, columns: &mut [Packed])
        requires whole { length frame.now.bits ≡ S.LEN }
        requires tributaries { length columns.old ≡ S.TRIBS }
        requires room { All (λ column. S.LOW + 1 ≤ column.capacity) columns.old }
        requires empty { All (λ column. column.bits ≡ []) columns.old }
        ensures { HasColumns S.shape (λ j. trib_bits S.shape j frame.now.bits) columns.new }
    {
        let Some(words) = self.words() else {
            return self.append_tribs(frame, columns);
        };
        match columns.len() {
            4 => deal_by_four::<S>(words, frame, columns),
            7 => deal_by_seven::<S>(words, frame, columns),
            _ => self.append_tribs(frame, columns),
        }
    }

    /// Leaves in the column of a tributary the bits that the frame gives it: without that of the
    /// justifiable slot where the frame carries no additional bit, and as they were before they were inverted.
    pub(crate) fn strip(&self, trib: u8, frame: &Packed, column: &mut Packed)
        requires known { trib < S.TRIBS }
        requires whole { length frame.now.bits ≡ S.LEN }
        requires column { column.old.bits ≡ trib_bits S.shape trib frame.now.bits }
        ensures { column.new ≡ record column.old { bits = stripped S.shape trib frame.now.bits } }
    {
        if !self.carries_more(trib, frame) {
            column.remove(usize::from(self.tributary(trib).just));
        }
        if S::inverted(trib) {
            column.invert();
        }
    }

    /// Whether the payload slots of a frame hold an odd number of ones: all of the frame but those in its
    /// overhead.
    pub(crate) fn is_odd(&self, frame: &Packed) -> bool
        requires { length frame.now.bits ≡ S.LEN }
        ensures { result ≡ (payload_ones S.shape 0 frame.now.bits % 2 == 1) }
    {
        let ones = frame.ones(0, frame.len());
        (ones - count_ones(self.overhead_slots(), frame)) % 2 == 1
    }
}
