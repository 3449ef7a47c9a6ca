//! Of a framed 2048 kbit/s line, at the end of a frame and on the way to it.

ghost use Rattle.std.specs.Prelude.{◌≡◌, ◌<◌, ◌≤◌, ◌+◌, ◌-◌, ◌/◌, ◌%◌, ℕ, Bool, true, false, List, [], ◌∷◌, ◌++◌, length, take, drop, IsTrue, OnOk};
ghost use Rattle.pdh_e1.specs.Crc4.{crc4, cleared};
ghost use Rattle.pdh_events.specs.Chain.{bits_events};
ghost use Rattle.pdh_g706.specs.Frames.{bit_of, frame_of, frames_of, has_signal, is_confirmed};
ghost use Rattle.pdh_g706.specs.Alignment.{frame, eight, sent_check, loses, earlier, reaches};
ghost use Rattle.pdh_g706.specs.Events.{e1_bit_events};
ghost use Rattle.pdh_g706.specs.Machine.{Fits, last_bits};
ghost use Rattle.pdh_g706.specs.Machine.Phase.{Searching, Aligned, Framed};
ghost use Rattle.pdh_g706.specs.View.{phase, StandsFor};

use pdh_edge::{Drain, Failed};
use pdh_g706::E1Align;
use pdh_packed::Packed;
use pdh_watch::Watch;

/// A search doesn't stop at a position where bit 2 of the second of three frames is 0.
pub fn confirmed_without_bit_2<D: Drain, W: Watch>(
    align: &mut E1Align,
    bit: bool,
    drain: &mut D,
    watch: &mut W,
) -> Result<(), Failed>
    requires fits { Fits (phase align.old) }
    requires room { align.old.held.capacity ≡ 16384 }
    requires list { IsTrue ((D.outputs drain.old).holds 0) }
    ensures { (held : List Bool) → phase align.old ≡ Searching held → length held ≡ 767
        → bit_of (frame_of (held ++ bit ∷ []) 1) 1 ≡ false
        → OnOk result (phase align.new ≡ Searching (drop 1 (held ++ bit ∷ []))) }
{
    align.turn(bit, drain, watch)
}

/// A block whose word the C bits of the block after it write isn't counted as errored.
pub fn crc_of_this_sub_multiframe<D: Drain, W: Watch>(
    align: &mut E1Align,
    bit: bool,
    drain: &mut D,
    watch: &mut W,
) -> Result<(), Failed>
    requires fits { Fits (phase align.old) }
    requires room { align.old.held.capacity ≡ 16384 }
    requires list { IsTrue ((D.outputs drain.old).holds 0) }
    ensures { (held : List Bool) (group wrong : ℕ) → phase align.old ≡ Framed held group wrong → length held ≡ 6143 → group < 999
        → sent_check (eight (frames_of (held ++ bit ∷ [])) 16) ≡ crc4 (cleared (eight (frames_of (held ++ bit ∷ [])) 8))
        → OnOk result (phase align.new ≡ Framed (held ++ bit ∷ []) (group + 1) wrong) }
{
    align.turn(bit, drain, watch)
}

/// An alignment isn't false by a group of 1000 blocks of which 914 at most are errored.
pub fn false_at_914<D: Drain, W: Watch>(
    align: &mut E1Align,
    bit: bool,
    drain: &mut D,
    watch: &mut W,
) -> Result<(), Failed>
    requires fits { Fits (phase align.old) }
    requires room { align.old.held.capacity ≡ 16384 }
    requires list { IsTrue ((D.outputs drain.old).holds 0) }
    ensures { (held : List Bool) → phase align.old ≡ Framed held 999 913 → length held ≡ 6143
        → OnOk result (phase align.new ≡ Framed (held ++ bit ∷ []) 0 0) }
{
    align.turn(bit, drain, watch)
}

/// No bit that is glided over brings an event, as the one with which AIS begins does.
pub fn glides_over_ais(align: &mut E1Align, bits: &Packed, from: usize) -> usize
    requires begun { from ≤ length bits.now.bits }
    requires stands { (line : List Bool) × StandsFor align.old line }
    ensures { (line : List Bool) → StandsFor align.old line → bits_events e1_bit_events line (take result (drop from bits.now.bits)) ≡ [] }
{
    align.glide(bits, from)
}

/// A bit that ends a frame may be the one with which alignment is lost, and isn't idle then.
pub fn glides_over_the_end_of_a_frame(align: &E1Align) -> u32
    requires { Fits (phase align.now) }
    ensures { (held : List Bool) (group wrong : ℕ) (bit : Bool) → phase align.now ≡ Framed held group wrong
        → length (held ++ bit ∷ []) % 256 ≡ 0 → loses (frames_of (held ++ bit ∷ [])) ≡ true → result ≡ 0 }
{
    align.idle()
}

/// The group that begins with an alignment has the blocks of this alignment alone.
pub fn group_from_before_the_alignment<D: Drain, W: Watch>(
    align: &mut E1Align,
    bit: bool,
    drain: &mut D,
    watch: &mut W,
) -> Result<(), Failed>
    requires fits { Fits (phase align.old) }
    requires room { align.old.held.capacity ≡ 16384 }
    requires list { IsTrue ((D.outputs drain.old).holds 0) }
    ensures { (held : List Bool) → phase align.old ≡ Aligned held → length (held ++ bit ∷ []) % 256 ≡ 0
        → (frames : List (List Bool)) → frames_of (held ++ bit ∷ []) ≡ frames → loses frames ≡ false → reaches frames ≡ true
        → OnOk result ((rest : List Bool) × (wrong : ℕ)
        × (phase align.new ≡ Framed rest ((length frames - earlier frames (length frames - 12)) / 8 - 1) wrong)) }
{
    align.turn(bit, drain, watch)
}

/// Two wrong alignment signals in a row don't lose alignment where the one before them is right.
pub fn loses_at_two_bad_signals<D: Drain, W: Watch>(
    align: &mut E1Align,
    bit: bool,
    drain: &mut D,
    watch: &mut W,
) -> Result<(), Failed>
    requires fits { Fits (phase align.old) }
    requires room { align.old.held.capacity ≡ 16384 }
    requires list { IsTrue ((D.outputs drain.old).holds 0) }
    ensures { (held : List Bool) (group wrong : ℕ) → phase align.old ≡ Framed held group wrong → length (held ++ bit ∷ []) % 512 ≡ 256
        → (frames : List (List Bool)) → frames_of (held ++ bit ∷ []) ≡ frames → has_signal (frame frames (length frames - 5)) ≡ true
        → OnOk result (phase align.new ≡ Framed (held ++ bit ∷ []) group wrong) }
{
    align.turn(bit, drain, watch)
}

/// Where alignment is lost a search begins with the last frame, however few frames are held since the last multiframe.
pub fn multiframe_delivered_after_the_loss<D: Drain, W: Watch>(
    align: &mut E1Align,
    bit: bool,
    drain: &mut D,
    watch: &mut W,
) -> Result<(), Failed>
    requires fits { Fits (phase align.old) }
    requires room { align.old.held.capacity ≡ 16384 }
    requires list { IsTrue ((D.outputs drain.old).holds 0) }
    ensures { (held : List Bool) (group wrong : ℕ) → phase align.old ≡ Framed held group wrong → length (held ++ bit ∷ []) % 256 ≡ 0
        → loses (frames_of (held ++ bit ∷ [])) ≡ true
        → OnOk result (phase align.new ≡ Searching (last_bits 256 (held ++ bit ∷ []))) }
{
    align.turn(bit, drain, watch)
}

/// A position that the next bit confirms, by its third frame too, isn't passed over.
pub fn position_with_a_right_third_frame_rejected(align: &E1Align) -> u32
    requires { Fits (phase align.now) }
    ensures { (held : List Bool) (bit : Bool) → phase align.now ≡ Searching held → length held ≡ 767
        → is_confirmed (held ++ bit ∷ []) ≡ true → result ≡ 0 }
{
    align.idle()
}
