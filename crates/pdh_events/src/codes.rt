//! The codes that the far end alarm and control channel tells in a frame.

ghost use Rattle.std.specs.Prelude.{◌<◌, All, Bool, List, ◌++◌, length, map, option_to_list};
ghost use Rattle.pdh_cbit.specs.Channel.{HasReceived};
ghost use Rattle.pdh_events.specs.Duties.{code_event};
ghost use Rattle.pdh_events.specs.Keeping.{bits_at, codes_told};

use pdh_cbit::FeacReceiver;
use pdh_packed::Packed;
use pdh_shape::Path;
use pdh_watch::{Event, Kind, Watch};

// Notes a code, if there is one.
fn note_code<W: Watch>(code: Option<u8>, path: Path, bit: u64, watch: &mut W)
    ensures { W.saw watch.old (map (code_event path bit) (option_to_list code)) watch.new }
{
    if let Some(value) = code {
        watch.note(&Event {
            kind: Kind::FEAC,
            path,
            bit,
            value,
        });
    }
}

// Gives the bits of these slots of a frame to the channel's receiver, and notes the codes that it answers.
pub(crate) fn note_codes<W: Watch>(
    slots: &[u16],
    frame: &Packed,
    channel: &mut FeacReceiver,
    path: Path,
    bit: u64,
    watch: &mut W,
)
    requires { All (λ slot. slot < length frame.now.bits) slots.now }
    ensures received { (before : List Bool) → HasReceived channel.old before
        → HasReceived channel.new (before ++ bits_at slots.now frame.now.bits) }
    ensures seen { (before : List Bool) → HasReceived channel.old before
        → W.saw watch.old (map (code_event path bit) (codes_told before (bits_at slots.now frame.now.bits))) watch.new }
{
    for slot in slots {
        let code = channel.push(frame.get(usize::from(*slot)));
        note_code(code, path, bit, watch);
    }
}
