//! Claims of the alignment machine.

ghost use Rattle.std.specs.Prelude.{◌≡◌, ◌<◌, ◌≤◌, ◌+◌, ◌&&◌, ℕ, Bool, List, [], ◌∷◌, ◌++◌, length, map, take, drop, true};
ghost use Rattle.std.specs.List.{list_any};
ghost use Rattle.pdh_shape.specs.Frame.{slots, is_multi, breaks_at};
ghost use Rattle.pdh_line.specs.Tracking.{Piece, track};
ghost use Rattle.pdh_line.specs.Tracking.Piece.{Gap, Delivered};
ghost use Rattle.pdh_phases.specs.Runs.{run_of};
ghost use Rattle.pdh_align.specs.Aligning.{StandsFor, frame_back};
ghost use Rattle.pdh_align.specs.OpenGap.{EndsInGap};
ghost use Rattle.pdh_align.specs.declared.step.Step.TheVariants.{Frame, Lost};

use pdh_align::{Aligner, Step};
use pdh_packed::Packed;
use pdh_shape::{Marks, Shape};

/// By bits that are taken the tracking of the line gains nothing.
pub fn takes_the_bit_that_ends_a_frame<S: Shape>(
    aligner: &mut Aligner<S>,
    bits: &Packed,
    from: usize,
    most: usize,
) -> usize
    requires { from + most ≤ length bits.now.bits }
    ensures { (line : List Bool) → StandsFor S.shape aligner.old line
        → track S.shape (line ++ take result (drop from bits.now.bits)) ≡ track S.shape line }
{
    aligner.take(bits, from, most)
}

/// By bits that are taken behind one at which an alignment may be lost the tracking gains nothing: the lost frame is held.
pub fn forgets_the_lost_frame<S: Shape>(
    aligner: &mut Aligner<S>,
    bit: bool,
    bits: &Packed,
    from: usize,
    most: usize,
) -> usize
    requires { from + most ≤ length bits.now.bits }
    ensures { (line : List Bool) → StandsFor S.shape aligner.old line
        → track S.shape ((line ++ bit ∷ []) ++ take result (drop from bits.now.bits)) ≡ track S.shape (line ++ bit ∷ []) }
{
    aligner.push(bit);
    aligner.take(bits, from, most)
}

/// At a loss a gap begins and no frame is delivered; where a frame is told, it is delivered.
pub fn frame_told_before_its_loss<S: Shape>(aligner: &mut Aligner<S>, bit: bool) -> Step
    ensures lost { result ≡ Lost → (line : List Bool) → StandsFor S.shape aligner.old line
        → track S.shape (line ++ bit ∷ []) ≡ track S.shape line ++ Gap 0 ∷ [] }
    ensures frame { result ≡ Frame → (line : List Bool) → StandsFor S.shape aligner.old line
        → track S.shape (line ++ bit ∷ []) ≡ track S.shape line ++ map Delivered aligner.new.ready }
{
    aligner.push(bit)
}

/// For each position that is passed over the gap grows by one: none of them is confirmed.
pub fn passes_a_right_frame<S: Shape>(
    aligner: &mut Aligner<S>,
    bits: &Packed,
    from: usize,
    most: usize,
) -> usize
    requires { from ≤ length bits.now.bits }
    ensures { 0 < result → (line : List Bool) → StandsFor S.shape aligner.old line
        → (others : List Piece) × (gap : ℕ) × (track S.shape line ≡ others ++ Gap gap ∷ [])
        × (track S.shape (line ++ take result (drop from bits.now.bits)) ≡ others ++ Gap (gap + length (take result (drop from bits.now.bits))) ∷ []) }
{
    aligner.pass(bits, from, most)
}

/// The phases of a search have all bits since its first, those of the positions that were passed over too.
pub fn last_passed_bit_is_not_searched<S: Shape>(
    aligner: &mut Aligner<S>,
    bits: &Packed,
    from: usize,
    most: usize,
    phase: u32,
) -> (usize, u8)
    requires begun { from ≤ length bits.now.bits }
    requires signal { 0 < S.SIGNAL }
    requires phase { phase < S.LEN }
    ensures { 0 < result.0 → (line : List Bool) (q : ℕ) → StandsFor S.shape aligner.old line
        → EndsInGap S.shape (line ++ take result.0 (drop from bits.now.bits)) q
        → result.1 ≡ run_of S.shape (drop q (line ++ take result.0 (drop from bits.now.bits))) phase }
{
    let count = aligner.pass(bits, from, most);
    let run = match aligner.phases() {
        Some(phases) => phases.run_at(phase),
        None => 0,
    };
    (count, run)
}

/// After a loss the phases have the bits of the lost frame, at which the search begins.
pub fn lost_frame_is_not_pushed_again<S: Shape>(
    aligner: &mut Aligner<S>,
    bit: bool,
    phase: u32,
) -> u8
    requires signal { 0 < S.SIGNAL }
    requires phase { phase < S.LEN }
    ensures { (line : List Bool) (q : ℕ) → StandsFor S.shape aligner.old line → EndsInGap S.shape (line ++ bit ∷ []) q
        → result ≡ run_of S.shape (drop q (line ++ bit ∷ [])) phase }
{
    aligner.push(bit);
    match aligner.phases() {
        Some(phases) => phases.run_at(phase),
        None => 0,
    }
}

/// A frame that is exchanged is the one by which the tracking grew at the last bit.
pub fn part_of_a_frame_exchanged<S: Shape>(
    aligner: &mut Aligner<S>,
    bit: bool,
    list: &mut Packed,
) -> bool
    requires { list.old.capacity ≡ S.LEN }
    ensures { result ≡ true → (line : List Bool) → StandsFor S.shape aligner.old line
        → track S.shape (line ++ bit ∷ []) ≡ track S.shape line ++ Delivered list.new.bits ∷ [] }
{
    aligner.push(bit);
    aligner.exchange_frame(list)
}

/// Behind a frame that is exchanged the line goes on as before: none of the list's bits is one of it.
pub fn bits_of_the_list_are_held<S: Shape>(
    aligner: &mut Aligner<S>,
    list: &mut Packed,
    bits: &Packed,
    from: usize,
    most: usize,
) -> usize
    requires room { list.old.capacity ≡ S.LEN }
    requires begun { from + most ≤ length bits.now.bits }
    ensures { (line : List Bool) → StandsFor S.shape aligner.old line
        → track S.shape (line ++ take result (drop from bits.now.bits)) ≡ track S.shape line }
{
    aligner.exchange_frame(list);
    aligner.take(bits, from, most)
}

/// The marks tell whether a multiframe slot of the newest frame is wrong.
#[tactic(auto, unfolding(pdh_shape::specs::Frame::wrong))]
pub fn multiframe_marks_missed<S: Shape>(aligner: &Aligner<S>) -> Marks
    requires { 0 < length aligner.now.ready }
    ensures { result.multi ≡ list_any (λ slot. is_multi (S.shape.mark slot) && breaks_at S.shape (frame_back aligner.now.ready 0) slot) (slots S.shape) }
{
    aligner.marks()
}
