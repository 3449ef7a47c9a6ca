//! AIS, what begins and ends, and the remote alarm.

ghost use Rattle.std.specs.Prelude.{◌≡◌, length, IfOk};

use pdh_eframes::E2;
use pdh_events::{AisRun, FrameTeller, note_change, note_kind};
use pdh_packed::Packed;
use pdh_runs::{Layout, Parts};
use pdh_shape::TOP;
use pdh_watch::{Event, Kind, Watch};
use std::alloc::{AllocError, Global};
use std::rc::Rc;
use std::test::Fail;

// Keeps the last event and the number of all.
#[derive(Drop)]
struct Last {
    event: Option<Event>,
    count: u32,
}

impl Watch for Last {
    ghost use Rattle.std.specs.Prelude.{⊤};

    ghost saw = { λ a xs b. ⊤ };

    ghost saw_nothing = { λ a. tt };

    ghost saw_join = { λ a b c xs ys p q. tt };

    fn note(&mut self, event: &Event) {
        self.event = Some(*event);
        self.count = self.count.saturating_add(1);
    }
}

impl Last {
    fn new() -> Last {
        Last {
            event: None,
            count: 0,
        }
    }

    // Whether it saw so many events, the last of this kind and bit.
    fn is(&self, count: u32, kind: Kind, bit: u64) -> bool {
        match self.event {
            Some(event) => self.count == count && event.kind == kind && event.bit == bit,
            None => false,
        }
    }
}

#[test]
fn ais_from_the_fourth_one_on(rt: HostRuntime) -> Result<(), Fail> {
    let mut last = Last::new();
    let mut run = AisRun::new(4);
    for number in 0..7 {
        run.note(number != 2, TOP, number, &mut last);
    }
    assert!(rt; last.is(1, Kind::AIS_ON, 6));
    run.note(true, TOP, 7, &mut last);
    run.note(false, TOP, 8, &mut last);
    assert!(rt; last.is(2, Kind::AIS_OFF, 8));
    Ok(())
}

#[test]
fn what_begins_and_ends(rt: HostRuntime) -> Result<(), Fail> {
    let mut last = Last::new();
    note_kind(Kind::LOST, TOP, 1, &mut last);
    assert!(rt; last.is(1, Kind::LOST, 1));
    note_change(
        Kind::ALARM_ON,
        Kind::ALARM_OFF,
        true,
        true,
        TOP,
        2,
        &mut last,
    );
    note_change(
        Kind::ALARM_ON,
        Kind::ALARM_OFF,
        false,
        true,
        TOP,
        3,
        &mut last,
    );
    assert!(rt; last.is(2, Kind::ALARM_ON, 3));
    Ok(())
}

// A frame of zeros, but for ones in some slots.
fn frame_with(alloc: Global, ones: &[u32]) -> Result<Packed, AllocError>
    ensures whole { IfOk result (λ frame. length frame.bits ≡ 848) }
    ensures room { IfOk result (λ frame. frame.capacity ≡ 848) }
{
    let mut frame = Packed::open(alloc, 848)?;
    for slot in 0..848 {
        frame.push(ones.contains(&slot));
    }
    Ok(frame)
}

// Takes a delivered frame, whose payload is read off the frame taken apart.
fn take(
    teller: &mut FrameTeller<E2>,
    parts: &mut Parts<E2>,
    mut frame: Packed,
    bit: u64,
    last: &mut Last,
)
    requires whole { length frame.bits ≡ 848 }
    requires room { frame.capacity ≡ 848 }
{
    parts.exchange(&mut frame);
    let odd = parts.is_odd();
    teller.note(parts.frame(), odd, TOP, bit, last);
}

#[test]
fn the_alarm_of_e2(rt: HostRuntime) -> Result<(), Fail> {
    let alloc = rt.alloc();
    let layout = Rc::new(alloc, Layout::<E2>::open(alloc)?)?;
    let mut teller = FrameTeller::open(alloc, &layout)?;
    let mut parts = Parts::open(alloc, layout)?;
    let mut last = Last::new();
    take(
        &mut teller,
        &mut parts,
        frame_with(alloc, &[])?,
        2543,
        &mut last,
    );
    assert!(rt; last.count == 0);
    take(
        &mut teller,
        &mut parts,
        frame_with(alloc, &[10])?,
        3391,
        &mut last,
    );
    assert!(rt; last.is(1, Kind::ALARM_ON, 3391));
    teller.lose();
    take(
        &mut teller,
        &mut parts,
        frame_with(alloc, &[10, 11])?,
        4239,
        &mut last,
    );
    take(
        &mut teller,
        &mut parts,
        frame_with(alloc, &[11])?,
        5087,
        &mut last,
    );
    assert!(rt; last.is(2, Kind::ALARM_OFF, 5087));
    Ok(())
}
