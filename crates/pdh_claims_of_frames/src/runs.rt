//! What callers may rely on of the runs of a frame, and of frames that are put together and taken apart.

ghost use Rattle.std.specs.Prelude.{◌≡◌, ◌<◌, ◌≤◌, ◌+◌, ◌*◌, ◌%◌, ◌==◌, ◌&&◌, ℕ, true, false, not, List, ◌∷◌, length, map, filter, count_by, IfOk};
ghost use Rattle.std.specs.List.{flat_map, range_with_len, slice_index_or};
ghost use Rattle.pdh_shape.specs.declared.role.Role.TheVariants.{Just};
ghost use Rattle.pdh_shape.specs.Frame.{slots};
ghost use Rattle.pdh_shape.specs.Payload.{is_payload};
ghost use Rattle.pdh_shape.specs.Tributary.{bits_read, carries_more, control_ones, reads_below, reads_from, stripped, turned};
ghost use Rattle.pdh_runs.specs.declared.run.Run.{Run};
ghost use Rattle.pdh_runs.specs.Pieces.{row, turn};
ghost use Rattle.pdh_runs.specs.Runs.{run_classes};

use pdh_packed::Packed;
use pdh_runs::laws::classes_by_runs;
use pdh_runs::{Layout, Parts, Run, runs};
use pdh_shape::Shape;
use std::alloc::{AllocError, Global};

/// A frame without an additional bit of a tributary gives the bits of its information slots, and not that of its justifiable slot.
#[tactic(auto, unfolding(pdh_shape::specs::Tributary::stripped))]
pub fn another_bit_than_the_stuffed_left_out<S: Shape>(parts: &mut Parts<S>, trib: u8)
    requires known { trib < S.TRIBS }
    requires low { carries_more S.shape trib parts.old.frame ≡ false }
    ensures { parts.new.bits ≡ bits_read S.shape trib false parts.old.frame }
{
    parts.read(trib);
}

/// The first slot of a tributary in a piece of a frame has the first bit of its queue.
pub fn column_begins_one_turn_late<S: Shape>(
    layout: &Layout<S>,
    trib: u8,
    first: u32,
    len: usize,
    queue: &Packed,
    column: &mut Packed,
)
    requires known { trib < S.TRIBS }
    requires inside { first + len ≤ S.LEN }
    requires held { reads_below S.shape trib true (first + len) ≤ reads_below S.shape trib true first + length queue.now.bits }
    requires room { S.LOW + 1 ≤ column.old.capacity }
    ensures { (v : ℕ) → v < len → reads_from trib true (S.shape.role (first + v)) ≡ true
        → reads_below S.shape trib true first + 0 ≡ reads_below S.shape trib true (first + v)
        → slice_index_or column.new.bits (row S.shape first v) false ≡ turned (S.shape.inverted trib) (slice_index_or queue.now.bits 0 false) }
{
    layout.fill_column(trib, true, first, len, queue, column);
}

/// The justifiable slot of a tributary is a one in a frame without an additional bit of it.
pub fn empty_turn_takes_a_queue_bit<S: Shape>(
    layout: &Layout<S>,
    trib: u8,
    first: u32,
    len: usize,
    queue: &Packed,
    column: &mut Packed,
)
    requires known { trib < S.TRIBS }
    requires inside { first + len ≤ S.LEN }
    requires held { reads_below S.shape trib false (first + len) ≤ reads_below S.shape trib false first + length queue.now.bits }
    requires room { S.LOW + 1 ≤ column.old.capacity }
    ensures { (v : ℕ) → v < len → reads_from trib true (S.shape.role (first + v)) ≡ true → reads_from trib false (S.shape.role (first + v)) ≡ false
        → slice_index_or column.new.bits (row S.shape first v) false ≡ true }
{
    layout.fill_column(trib, false, first, len, queue, column);
}

/// A frame that is given in exchange for one that was read is read itself from then on.
#[tactic(auto, unfolding(pdh_shape::specs::Tributary::stripped))]
pub fn frame_read_as_the_one_before<S: Shape>(parts: &mut Parts<S>, frame: &mut Packed, trib: u8)
    requires known { trib < S.TRIBS }
    requires whole { length frame.old.bits ≡ S.LEN }
    requires room { frame.old.capacity ≡ S.LEN }
    ensures { parts.new.bits ≡ bits_read S.shape trib (carries_more S.shape trib frame.old.bits) frame.old.bits }
{
    parts.read(trib);
    parts.exchange(frame);
    parts.read(trib);
}

/// A justifiable slot is a payload slot of its run.
pub fn justifiable_slot_as_overhead<S: Shape>(alloc: Global) -> Result<Vec<Run>, AllocError>
    ensures { IfOk result (λ runs. (slot j : ℕ) → slot < S.LEN → S.shape.role slot ≡ Just j → slice_index_or (flat_map run_classes runs.items) slot false ≡ true) }
{
    classes_by_runs::<S>();
    runs::<S>(alloc)
}

/// A frame in which more than half of a tributary's control copies are 1 carries no additional bit of it.
pub fn list_forgets_the_last_slot<S: Shape>(layout: &Layout<S>, trib: u8, frame: &Packed) -> bool
    requires known { trib < S.TRIBS }
    requires whole { length frame.now.bits ≡ S.LEN }
    requires more { S.shape.copies < 2 * control_ones S.shape trib frame.now.bits }
    ensures { result ≡ false }
{
    layout.carries_more(trib, frame)
}

/// A frame in which fewer than half of a tributary's control copies are 1 carries an additional bit of it.
pub fn one_control_copy_decides<S: Shape>(layout: &Layout<S>, trib: u8, frame: &Packed) -> bool
    requires known { trib < S.TRIBS }
    requires whole { length frame.now.bits ≡ S.LEN }
    requires fewer { 2 * control_ones S.shape trib frame.now.bits < S.shape.copies }
    ensures { result ≡ true }
{
    layout.carries_more(trib, frame)
}

/// The parity of a frame is even where no payload slot is a one, whatever its other slots are.
pub fn parity_counts_the_overhead<S: Shape>(parts: &Parts<S>) -> bool
    requires { (slot : ℕ) → (slice_index_or parts.now.frame slot false && is_payload (S.shape.role (0 + slot))) ≡ false }
    ensures { result ≡ false }
{
    parts.is_odd()
}

/// The parity of a frame counts the ones of all its payload slots.
pub fn parity_of_one_column_alone<S: Shape>(parts: &Parts<S>) -> bool
    ensures { result ≡ (count_by (λ slot. slice_index_or parts.now.frame slot false && is_payload (S.shape.role (0 + slot))) (range_with_len 0 (length parts.now.frame)) % 2 == 1) }
{
    parts.is_odd()
}

/// A frame that carries an additional bit of an inverted tributary gives the opposite of each of its bits.
pub fn reads_an_inverted_column_as_it_is<S: Shape>(parts: &mut Parts<S>, trib: u8)
    requires known { trib < S.TRIBS }
    requires more { carries_more S.shape trib parts.old.frame ≡ true }
    requires inverted { S.shape.inverted trib ≡ true }
    ensures { parts.new.bits ≡ map (λ slot. not (slice_index_or parts.old.frame slot false)) (filter (λ slot. reads_from trib true (S.shape.role slot)) (slots S.shape)) }
{
    parts.read(trib);
}

/// A run that another follows has payload slots.
pub fn run_ends_within_its_overhead<S: Shape>(alloc: Global) -> Result<Vec<Run>, AllocError>
    ensures { IfOk result (λ runs. (run next : Run) (rest : List Run) → runs.items ≡ run ∷ next ∷ rest → 0 < run.payload) }
{
    runs::<S>(alloc)
}

/// Where a frame carries no additional bit of a tributary, a bit stands a turn later from its justifiable slot on.
pub fn turn_without_the_empty_one<S: Shape>(parts: &Parts<S>, trib: u8, place: usize) -> usize
    requires known { trib < S.TRIBS }
    requires read { parts.now.bits ≡ stripped S.shape trib parts.now.frame }
    requires inside { place < length parts.now.bits }
    requires low { carries_more S.shape trib parts.now.frame ≡ false }
    ensures { (t : ℕ) → t < S.LEN → S.shape.role t ≡ Just trib → turn S.shape t ≤ place → result ≡ place + 1 }
{
    parts.turn(trib, place)
}
