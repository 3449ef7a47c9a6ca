//! Multiframes of a line, as they stand in it (G.704, 2.3).

ghost use Rattle.std.specs.Prelude.{◌≡◌, ◌≤◌, ◌+◌, ◌*◌, length, take, drop};
ghost use Rattle.std.specs.List.{range_with_len, list_all};
ghost use Rattle.pdh_g706.specs.Frames.{frames_of, has_signal as has_signal_in};
ghost use Rattle.pdh_g706.specs.Alignment.{frame, has_multi};
ghost use Rattle.pdh_e1_judging.specs.Judged.{is_right as is_right_multiframe};

use pdh_packed::Packed;

// The frame alignment signal, in bits 2 to 8 of each even frame.
const ALIGNMENT_SIGNAL: u64 = 0b0011011;

// The multiframe alignment signal, in the first bits of frames 1, 3 and so on.
const MULTIFRAME_SIGNAL: [bool; 6] = [false, false, true, false, true, true];

// Whether the frame that begins at this bit has the alignment signal.
fn has_signal(line: &Packed, start: usize) -> bool
    requires { start + 256 ≤ length line.now.bits }
    ensures { result ≡ has_signal_in (take 256 (drop start line.now.bits)) }
{
    // a place fits, since a length does
    let _fits = line.len();
    line.read(start + 1, 7).number() == ALIGNMENT_SIGNAL
}

// Whether the frame alignment signal stands in each even frame of the multiframe that begins at this bit.
fn has_frame_signals(line: &Packed, start: usize) -> bool
    requires { start + 4096 ≤ length line.now.bits }
    ensures { result ≡ list_all (λ k. has_signal_in (frame (frames_of (take 4096 (drop start line.now.bits))) (2 * k)))
        (range_with_len 0 8) }
{
    // a place fits, since a length does
    let _fits = line.len();
    for pair in 0..8 {
        if !has_signal(line, start + 512 * pair) {
            return false;
        }
    }
    true
}

// Whether the multiframe alignment signal stands in the multiframe that begins at this bit.
fn has_multiframe_signal(line: &Packed, start: usize) -> bool
    requires { start + 4096 ≤ length line.now.bits }
    ensures { result ≡ has_multi (frames_of (take 4096 (drop start line.now.bits))) 0 }
{
    // a place fits, since a length does
    let _fits = line.len();
    for number in 0..6 {
        if line.get(start + 512 * number + 256) != MULTIFRAME_SIGNAL[number] {
            return false;
        }
    }
    true
}

/// Whether the multiframe that begins at this bit is right: its alignment signals are.
#[tactic(auto, unfolding(crate::specs::Judged::is_right))]
pub(crate) fn is_right(line: &Packed, start: usize) -> bool
    requires { start + 4096 ≤ length line.now.bits }
    ensures { result ≡ is_right_multiframe (frames_of (take 4096 (drop start line.now.bits))) }
{
    has_frame_signals(line, start) && has_multiframe_signal(line, start)
}
