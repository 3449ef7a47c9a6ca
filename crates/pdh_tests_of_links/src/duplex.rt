//! Worked sessions of two terminals.

ghost use Rattle.std.specs.Prelude.{◌≤◌};
ghost use Rattle.pdh_shape.specs.OwnNumbers.{most_drilled};

use pdh_chain::{Chain, frame_bytes};
use pdh_duplex::{Duplex, Session, duplex};
use pdh_script::Script;
use pdh_watch::{Boxes, Counter, Kind, Latch, Monitor, Quiet, Watch};
use std::alloc::Global;
use std::test::Fail;

// What both terminals count in ten frames of which no bit is disturbed.
const UNDISTURBED: Session = Session {
    west_frames: 10,
    east_frames: 10,
    west_alarms: 1,
    east_alarms: 1,
    west_febe: 0,
    east_febe: 0,
    west_errors: 0,
    east_errors: 0,
};

// What they count where neither receives anything.
const NOTHING: Session = Session {
    west_frames: 0,
    east_frames: 0,
    west_alarms: 0,
    east_alarms: 0,
    west_febe: 0,
    east_febe: 0,
    west_errors: 0,
    east_errors: 0,
};

// A session of so many frames of a chain, whose lines these texts disturb.
fn session<W: Watch, E: Watch>(
    alloc: Global,
    chain: Chain,
    frames: u64,
    texts: [&str; 2],
    west: W,
    east: E,
) -> Result<Duplex<W, E>, Fail>
    requires { frames ≤ most_drilled }
{
    let bits = 8 * frames * u64::from(frame_bytes(chain));
    let to_east = Script::read(alloc, texts[0].as_bytes(), bits)?;
    let to_west = Script::read(alloc, texts[1].as_bytes(), bits)?;
    Ok(duplex(alloc, chain, 1, frames, &to_east, &to_west, west, east))
}

#[test]
fn nothing_is_told_of_undisturbed_lines(rt: HostRuntime) -> Result<(), Fail> {
    let done = session(rt.alloc(), Chain::C13, 10, ["", ""], Quiet, Quiet)?;
    assert!(rt; done.session? == UNDISTURBED);
    Ok(())
}

#[test]
fn an_error_is_told_to_the_end_that_sent_it(rt: HostRuntime) -> Result<(), Fail> {
    let done = session(
        rt.alloc(),
        Chain::C13,
        10,
        ["", "flip 23801 1"],
        Quiet,
        Quiet,
    )?;
    let told = Session {
        east_febe: 1,
        west_errors: 1,
        ..UNDISTURBED
    };
    assert!(rt; done.session? == told);
    Ok(())
}

#[test]
fn monitors_of_both_ends_see_what_their_end_receives(rt: HostRuntime) -> Result<(), Fail> {
    let alloc = rt.alloc();
    let mut west: Vec<Box<dyn Monitor>> = Vec::new(alloc);
    west.push(Box::new(alloc, Counter::new(Kind::FEBE))?)?;
    west.push(Box::new(alloc, Latch::new())?)?;
    let mut east: Vec<Box<dyn Monitor>> = Vec::new(alloc);
    east.push(Box::new(alloc, Counter::new(Kind::PARITY))?)?;
    east.push(Box::new(alloc, Counter::new(Kind::FEBE))?)?;
    let texts = ["flip 23801 1", ""];
    let done = session(
        alloc,
        Chain::C13,
        10,
        texts,
        Boxes::new(west),
        Boxes::new(east),
    )?;
    let told = Session {
        west_febe: 1,
        east_errors: 1,
        ..UNDISTURBED
    };
    assert!(rt; done.session? == told);
    let west = done.west.into_list();
    assert!(rt; west.len() == 2);
    assert!(rt; west[0].hits() == 1);
    assert!(rt; west[1].hits() == 2);
    drop(west);
    let east = done.east.into_list();
    assert!(rt; east.len() == 2);
    assert!(rt; east[0].hits() == 1);
    assert!(rt; east[1].hits() == 0);
    drop(east);
    Ok(())
}

#[test]
fn two_frames_are_never_delivered(rt: HostRuntime) -> Result<(), Fail> {
    let done = session(rt.alloc(), Chain::E12, 2, ["", ""], Quiet, Quiet)?;
    assert!(rt; done.session? == NOTHING);
    Ok(())
}
