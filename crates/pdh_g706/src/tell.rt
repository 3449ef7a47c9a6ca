//! What the bits that are held tell: errored blocks, the far end's alarm, and the errored blocks of the far end. They are cut
//! into frames from the oldest on.

ghost use Rattle.std.specs.Prelude.{◌≡◌, ◌≤◌, ◌+◌, ◌*◌, ◌%◌, ◌&&◌, Bool, false, [], ◌∷◌, ◌++◌, not, nat_le, if◌then◌else◌, length};
ghost use Rattle.std.specs.List.{slice_index_or};
ghost use Rattle.pdh_line.specs.Paths.{top};
ghost use Rattle.pdh_events.specs.Telling.{tell, changed};
ghost use Rattle.pdh_g706.specs.Frames.{frames_of};
ghost use Rattle.pdh_g706.specs.Events.{alarm_after, crc_kinds, frames_kinds};
ghost use Rattle.pdh_g706.specs.Machine.{frames_from, each_errs, errs_in as errs_all};
ghost use Rattle.pdh_g706.specs.View.{is_framed};
ghost use Rattle.pdh_watch.specs.declared.kind.TheConstants.Kind.{LOST, ALARM_ON, ALARM_OFF, EBIT};

use crate::held::errs;
use crate::stage::Stage;
use pdh_events::{note_change, note_kind};
use pdh_packed::BitRing;
use pdh_shape::TOP;
use pdh_watch::{Kind, Watch};

/// Notes a loss of basic alignment in this stage, where multiframe alignment was reached.
pub(crate) fn note_loss<W: Watch>(stage: Stage, number: u64, watch: &mut W)
    ensures { W.saw watch.old (tell top number (if is_framed stage then LOST ∷ [] else [])) watch.new }
{
    if let Stage::Framed = stage {
        note_kind(Kind::LOST, TOP, number, watch);
    }
}

/// Notes a judged block, where it is errored.
pub(crate) fn note_block<W: Watch>(errored: bool, number: u64, watch: &mut W)
    ensures { W.saw watch.old (tell top number (crc_kinds (errored ∷ []))) watch.new }
{
    if errored {
        note_kind(Kind::CRC, TOP, number, watch);
    }
}

/// Judges so many sub-multiframes from this frame on, notes each that is errored, and counts them.
pub(crate) fn judge<W: Watch>(
    held: &BitRing,
    frame: u32,
    count: u32,
    number: u64,
    watch: &mut W,
) -> u32
    requires { 256 * frame + 2048 * count + 2048 ≤ length held.now.bits }
    ensures count { result ≡ errs_all (frames_of held.now.bits) frame count }
    ensures most { result ≤ count }
    ensures seen { W.saw watch.old (tell top number (crc_kinds (each_errs (frames_of held.now.bits) frame count)))
        watch.new }
{
    // a place fits, since a length does
    let _fits = held.held();
    let mut errored = 0;
    for block in 0..count {
        let wrong = errs(held, frame + 8 * block);
        note_block(wrong, number, watch);
        errored += u32::from(wrong);
    }
    errored
}

// Whether the odd frame that begins at this bit tells an errored block: its number among the odd frames, counted from 0,
// tells whether its first bit is an E bit.
fn tells_error(held: &BitRing, start: u32, odd: u32) -> bool
    requires { start + 256 ≤ length held.now.bits }
    ensures { result ≡ (nat_le 6 (odd % 8) && not (slice_index_or held.now.bits start false)) }
{
    if odd % 8 < 6 {
        return false;
    }
    !held.bit(start)
}

// Notes what an odd frame tells: whether the alarm begins or ends, and then an errored block.
fn note_odd_frame<W: Watch>(was: bool, is: bool, error: bool, number: u64, watch: &mut W)
    ensures { W.saw watch.old (tell top number (changed ALARM_ON ALARM_OFF was is
        ++ (if error then EBIT ∷ [] else []))) watch.new }
{
    note_change(Kind::ALARM_ON, Kind::ALARM_OFF, was, is, TOP, number, watch);
    if error {
        note_kind(Kind::EBIT, TOP, number, watch);
    }
}

/// Notes what so many pairs of an even and an odd frame from this frame on tell, after an alarm or none, and says whether
/// there is an alarm then.
pub(crate) fn note_frames<W: Watch>(
    held: &BitRing,
    frame: u32,
    pairs: u32,
    alarm: bool,
    number: u64,
    watch: &mut W,
) -> bool
    requires { 256 * frame + 512 * pairs ≤ length held.now.bits }
    ensures alarm { result ≡ alarm_after alarm (frames_from (frames_of held.now.bits) frame (2 * pairs)) }
    ensures seen { W.saw watch.old (tell top number
        (frames_kinds alarm (frames_from (frames_of held.now.bits) frame (2 * pairs)) 0 pairs)) watch.new }
{
    // a place fits, since a length does
    let _fits = held.held();
    let mut last = alarm;
    for odd in 0..pairs {
        let start = 256 * (frame + 2 * odd + 1);
        let says = held.bit(start + 2);
        note_odd_frame(last, says, tells_error(held, start, odd), number, watch);
        last = says;
    }
    last
}
