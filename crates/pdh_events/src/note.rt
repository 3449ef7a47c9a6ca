//! Telling a watch of an event, or that something begins or ends.

ghost use Rattle.std.specs.Prelude.{if◌then◌else◌, [], ◌∷◌};
ghost use Rattle.pdh_events.specs.Telling.{tell, changed};

use pdh_shape::Path;
use pdh_watch::{Event, Kind, Watch};

/// Notes an event of a bit of the line of the node at a path.
pub fn note_kind<W: Watch>(kind: Kind, path: Path, bit: u64, watch: &mut W)
    ensures { W.saw watch.old (tell path bit (kind ∷ [])) watch.new }
{
    watch.note(&Event {
        kind,
        path,
        bit,
        value: 0,
    });
}

// Notes an event, if it is there.
pub(crate) fn note_if<W: Watch>(is: bool, kind: Kind, path: Path, bit: u64, watch: &mut W)
    ensures { W.saw watch.old (tell path bit (if is then kind ∷ [] else [])) watch.new }
{
    if is {
        note_kind(kind, path, bit, watch);
    }
}

/// Notes that something begins or ends, if it does.
pub fn note_change<W: Watch>(
    on: Kind,
    off: Kind,
    was: bool,
    is: bool,
    path: Path,
    bit: u64,
    watch: &mut W,
)
    ensures { W.saw watch.old (tell path bit (changed on off was is)) watch.new }
{
    match (was, is) {
        (false, true) => note_kind(on, path, bit, watch),
        (true, false) => note_kind(off, path, bit, watch),
        _ => {}
    }
}
