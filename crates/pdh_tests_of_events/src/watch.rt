//! Kinds by their names, and monitors that see events.

ghost use Rattle.std.specs.Prelude.{◌≡◌, [], ◌∷◌};

use bitflags::Flags;
use pdh_shape::Path;
use pdh_watch::{Boxes, Counter, Event, First, Kind, Latch, Monitor, Quiet, Watch};
use std::test::Fail;

// Sees one event and then another.
fn note_two<W: Watch>(watch: &mut W, first: &Event, second: &Event)
    ensures { W.saw watch.old (first.now ∷ second.now ∷ []) watch.new }
{
    watch.note(first);
    watch.note(second);
}

// An event of the second tributary's third.
fn event(kind: Kind, bit: u64) -> Event {
    Event {
        kind,
        path: Path {
            depth: 2,
            first: 2,
            second: 3,
        },
        bit,
        value: 0,
    }
}

#[test]
fn kinds_by_name_and_events_in_order(rt: HostRuntime) -> Result<(), Fail> {
    let lost = Kind::from_name("lost");
    assert!(rt; lost == Some(Kind::LOST));
    assert!(rt; Kind::all().bits() == 4095);
    note_two(
        &mut Quiet,
        &event(Kind::ALIGNED, 2543),
        &event(Kind::FEAC, 2544),
    );
    Ok(())
}

// A monitor of the test's own, which counts losses.
#[derive(Drop)]
struct Losses {
    hits: u64,
}

impl Monitor for Losses {
    ghost use Rattle.std.specs.Prelude.{None, codes};
    ghost use Rattle.pdh_watch.specs.declared.kind.TheConstants.Kind.{LOST};
    ghost use Rattle.pdh_watch.specs.Monitors.Form.{Own};

    ghost state = { λ m. record { form = Own; wants = LOST; hits = m.hits; first = None; alarms = 0; own_text = codes "!" } };

    fn wants(&self) -> Kind {
        Kind::LOST
    }

    fn hits(&self) -> u64 {
        self.hits
    }

    fn see(&mut self, event: &Event) {
        if Kind::LOST.contains(event.kind) {
            self.hits = self.hits.saturating_add(1);
        }
    }

    fn line(&self, out: &mut [u8]) -> usize {
        let text = "!".as_bytes();
        out[..text.len()].copy_from_slice(text);
        text.len()
    }
}

// The text of a monitor is this one.
fn says<M: Monitor>(monitor: &M, text: &str) -> bool {
    let mut out = [0u8; 160];
    let len = monitor.line(&mut out);
    &out[..len] == text.as_bytes()
}

#[test]
fn nothing_seen(rt: HostRuntime) -> Result<(), Fail> {
    let kinds = Kind::LOST.union(Kind::ALIGNED).union(Kind::CRC);
    assert!(rt; says(&Counter::new(kinds), "aligned+lost+crc: 0"));
    assert!(rt; says(&First::new(Kind::EBIT), "first ebit: none"));
    let mut latch = Latch::new();
    latch.see(&event(Kind::ALARM_OFF, 7));
    assert!(rt; says(&latch, "alarms open: 0"));
    assert!(rt; latch.wants() == Kind::from_bits_retain(48));
    Ok(())
}

#[test]
fn boxes_show_each_event_to_each(rt: HostRuntime) -> Result<(), Fail> {
    let alloc = rt.alloc();
    let kinds = Kind::LOST.union(Kind::ALIGNED);
    let mut list: Vec<Box<dyn Monitor>> = Vec::new(alloc);
    list.push(Box::new(alloc, Counter::new(kinds))?)?;
    list.push(Box::new(alloc, First::new(Kind::LOST))?)?;
    list.push(Box::new(alloc, Latch::new())?)?;
    list.push(Box::new(alloc, Losses { hits: 0 })?)?;
    let mut boxes = Boxes::new(list);
    boxes.note(&event(Kind::ALIGNED, 2543));
    boxes.note(&event(Kind::ALARM_ON, 2543));
    boxes.note(&event(Kind::LOST, 5935));
    boxes.note(&event(Kind::LOST, 9000));
    assert!(rt; boxes.count() == 4);
    let list = boxes.into_list();
    assert!(rt; list.len() == 4);
    let said = [
        says(&list[0], "aligned+lost: 3"),
        says(&list[1], "first lost: /2/3 bit 5935"),
        says(&list[2], "alarms open: 1"),
        says(&list[3], "!"),
    ];
    assert!(rt; said == [true; 4]);
    assert!(rt; list[3].hits() == 2);
    Ok(())
}
