//! Frame shapes as a trait, with the laws that hold of each.

ghost use Rattle.std.specs.Prelude.{◌≡◌, ◌<◌, ◌≤◌, ◌⊎◌, ◌%◌, ℕ};
ghost use Rattle.pdh_shape.specs.Frame.{FrameShape, IsFrame, HasMarks, HasSignal};
ghost use Rattle.pdh_shape.specs.Payload.{PayloadInTurn};
ghost use Rattle.pdh_shape.specs.Tributary.{is_majority, HasTributaries, ReadsEvenly};

use crate::{Duty, Mark, Marks, Role, Service};

/// The shape of a multiplexer's frame. Slots, tributaries, copies and numbers are counted from 0.
pub trait Shape: Drop {
    /// The shape as a value, which definitions take.
    ghost shape: { FrameShape };

    ghost LEN: { ℕ };

    /// Slots in a frame, which is bits on the line.
    const LEN: u32;

    ghost TRIBS: { ℕ };

    /// Tributaries.
    const TRIBS: u8;

    ghost COPIES: { ℕ };

    /// Copies of each tributary's justification control; 0 where the shape has none.
    const COPIES: u8;

    ghost LOW: { ℕ };

    /// The least number of bits of a tributary that a frame carries. It carries one more where its
    /// justification control says so.
    const LOW: u32;

    ghost SIGNAL: { ℕ };

    /// Slots of the alignment signal that begins a frame; 0 where the alignment slots are spread
    /// over the frame.
    const SIGNAL: u32;

    /// What a slot carries.
    fn role(slot: u32) -> Role
        requires { slot < LEN }
        ensures { result ≡ shape.role slot };

    /// Which alignment slot a slot is; Other exactly where its role isn't Align.
    fn mark(slot: u32) -> Mark
        requires { slot < LEN }
        ensures { result ≡ shape.mark slot };

    /// Whether the bits of a tributary are inverted on the line. It may be asked of any number, so that
    /// it has a meaning for a shape without tributaries too.
    fn inverted(trib: u8) -> bool
        ensures { result ≡ shape.inverted trib };

    /// What the service bit of a number tells the receiver; Other for a number that the shape
    /// doesn't have.
    fn duty(number: u8) -> Duty
        ensures { result ≡ shape.duty number };

    /// The service bit of a number, where the frame says `say` and the information slots of the
    /// frame before hold an odd number of ones or not; true for a number that the shape doesn't
    /// have.
    fn service(number: u8, say: &Service, odd: bool) -> bool
        ensures { result ≡ shape.service number say.now odd };

    /// Whether a frame with marks d completes a loss of alignment, after frames with marks a, b
    /// and c. Frames before the alignment count as right.
    fn loses(a: &Marks, b: &Marks, c: &Marks, d: &Marks) -> bool
        ensures { result ≡ shape.loses a.now b.now c.now d.now };

    /// The constants are those of the value.
    ghost len_is: { shape.len ≡ LEN };

    ghost tribs_is: { shape.tribs ≡ TRIBS };

    ghost copies_is: { shape.copies ≡ COPIES };

    ghost low_is: { shape.low ≡ LOW };

    ghost signal_is: { shape.signal ≡ SIGNAL };

    /// The frame has some slots and not too many, and frames that are right complete no loss.
    ghost is_frame: { IsFrame shape };

    /// The alignment slots are those that are marked, and the framing slots are numbered.
    ghost has_marks: { HasMarks shape };

    /// The alignment signal has few slots, and where it begins the frame, the alignment slots are
    /// its own.
    ghost has_signal: { HasSignal shape };

    /// Each tributary has its information slots, its justifiable slot and before that its control
    /// slots, and no slot names another tributary.
    ghost has_tributaries: { HasTributaries shape };

    /// The slots of a tributary are spread evenly over the frame.
    ghost reads_evenly: { ReadsEvenly shape };

    /// The information and justifiable slots of a frame, counted from its start, belong to the
    /// tributaries in turn, and the turns are whole.
    ghost in_turn: { PayloadInTurn shape };
}

/// Whether a frame carries the lower number of a tributary's bits, where so many of its control
/// copies are 1: the majority is 1, or there are no copies (ITU-T G.742, 5).
pub fn majority(ones: u8, copies: u8) -> bool
    requires in_range { ones ≤ copies }
    requires odd { (copies ≡ 0) ⊎ (copies % 2 ≡ 1) }
    ensures { result ≡ is_majority ones copies }
{
    copies == 0 || ones > copies / 2
}
