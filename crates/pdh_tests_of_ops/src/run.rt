//! Whole runs over devices in memory: with monitors of the caller's own, and where no call fails.

use bitflags::Flags;
use pdh_edge::{MemShelf, MemSink, NeverFails, Shelf};
use pdh_ops::{run, run_never_failing};
use pdh_watch::{Counter, Event, Kind, Monitor};
use std::alloc::{AllocError, Global};
use std::rc::Rc;
use std::test::Fail;

// A monitor of the test's own, which counts losses, says a text of its own, as long as one may be, and holds a share of a byte
// until it is dropped.
#[derive(Drop)]
struct Losses {
    hits: u64,
    text: [u8; 160],
    held: Rc<u8>,
}

impl Monitor for Losses {
    ghost use Rattle.std.specs.Prelude.{None};
    ghost use Rattle.pdh_watch.specs.declared.kind.TheConstants.Kind.{LOST};
    ghost use Rattle.pdh_watch.specs.Monitors.Form.{Own};

    ghost state = { λ m. record { form = Own; wants = LOST; hits = m.hits; first = None; alarms = 0; own_text = m.text } };

    fn wants(&self) -> Kind {
        Kind::LOST
    }

    fn hits(&self) -> u64 {
        self.hits
    }

    fn see(&mut self, event: &Event) {
        if Kind::LOST.contains(event.kind) {
            self.hits = self.hits.saturating_add(1);
        }
    }

    fn line(&self, out: &mut [u8]) -> usize {
        let text = self.text.as_slice();
        out[..text.len()].copy_from_slice(text);
        text.len()
    }
}

// Frames of `e12` with four wrong signals in a row, which are a loss.
fn line_with_a_loss(line: &mut [u8]) {
    for frame in 0..12usize {
        if line.len() >= 106 * (frame + 1) {
            line[106 * frame] = if frame < 3 || frame > 6 { 0xF4 } else { 0x04 };
            line[106 * frame + 1] = 0x10;
        }
    }
}

#[test]
fn monitors_come_back_and_are_dropped_once(rt: HostRuntime) -> Result<(), Fail> {
    let alloc = rt.alloc();
    let held = Rc::new(alloc, 0u8)?;
    let mut monitors: Vec<Box<dyn Monitor>> = Vec::new(alloc);
    let mut text = [b'!'; 160];
    text[0] = b'<';
    text[159] = b'>';
    let own = Losses {
        hits: 0,
        text,
        held: held.clone()?,
    };
    monitors.push(Box::new(alloc, own)?)?;
    monitors.push(Box::new(alloc, Counter::new(Kind::LOST))?)?;
    let mut line = [0u8; 1272];
    line_with_a_loss(&mut line);
    let mut shelf = MemShelf::open(alloc)?;
    shelf.hold("line.bits", &line)?;
    let out = MemSink::open(alloc, 300)?;
    let mut words: Vec<String> = Vec::new(alloc);
    words.push(String::from_str(alloc, "inspect")?)?;
    words.push(String::from_str(alloc, "e12")?)?;
    let ran = run(alloc, &words, shelf, out, &mut monitors);
    assert!(rt; ran.status == 0);
    let written = ran.out.written();
    let rest = b"\nlost: 1\ninspect e12: frames 11 events 3\n".as_slice();
    assert!(rt; written.starts_with(&text) && written.ends_with(rest));
    assert!(rt; written.len() == text.len() + rest.len());
    assert!(rt; monitors.len() == 2);
    assert!(rt; monitors[0].hits() == 1);
    assert!(rt; monitors[1].hits() == 1);
    assert!(rt; Rc::strong_count(&held) == 2);
    drop(monitors);
    assert!(rt; Rc::strong_count(&held) == 1);
    Ok(())
}

// The words of a command.
fn words(alloc: Global, command: &str, chain: &str) -> Result<Vec<String>, AllocError> {
    Ok(vec![in alloc;
        String::from_str(alloc, command)?,
        String::from_str(alloc, chain)?,
    ]?)
}

// An empty schedule and four empty leaves, over which no call fails.
fn empty_inputs(alloc: Global) -> Result<NeverFails, AllocError> {
    let names = vec![in alloc;
        String::from_str(alloc, "schedule.txt")?,
        String::from_str(alloc, "t01.bits")?,
        String::from_str(alloc, "t02.bits")?,
        String::from_str(alloc, "t03.bits")?,
        String::from_str(alloc, "t04.bits")?,
    ]?;
    let files = vec![in alloc;
        Vec::new(alloc),
        Vec::new(alloc),
        Vec::new(alloc),
        Vec::new(alloc),
        Vec::new(alloc),
    ]?;
    NeverFails::open(alloc, &names, &files)
}

#[test]
fn no_frames_over_devices_that_never_fail(rt: HostRuntime) -> Result<(), Fail> {
    let alloc = rt.alloc();
    let mut monitors: Vec<Box<dyn Monitor>> = Vec::new(alloc);
    let words = words(alloc, "mux", "e12")?;
    let out = MemSink::open(alloc, 100)?;
    let ran = run(alloc, &words, empty_inputs(alloc)?, out, &mut monitors);
    assert!(rt; ran.status == 0);
    assert!(rt; ran.out.written() == b"mux e12: frames 0\n".as_slice());
    assert!(rt; (ran.shelf.taken(), ran.shelf.write_faults()) == (0, 0));
    let empty = empty_inputs(alloc)?;
    let ran = run_never_failing(alloc, &words, empty, empty_inputs(alloc)?, &mut monitors);
    assert!(rt; (ran.status, ran.out.taken()) == (0, 18));
    Ok(())
}
