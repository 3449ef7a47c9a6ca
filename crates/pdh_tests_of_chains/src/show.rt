//! Worked frames as text.

ghost use Rattle.std.specs.Prelude.{◌≡◌, ◌*◌, length, IsTrue, IfOk};

use pdh_chain::Chain;
use pdh_edge::{Feed, MemPort};
use pdh_packed::Packed;
use pdh_show::show;
use std::alloc::{AllocError, Global};
use std::test::Fail;

// The lines of a frame of e12 whose signal is right, with ones in all control copies.
const E12_LINES: [&str; 12] = [
    "show e12 frame 1: signal right",
    "tributary 1 controls 111 carries 205",
    "tributary 2 controls 111 carries 205",
    "tributary 3 controls 111 carries 205",
    "tributary 4 controls 111 carries 205",
    "f4100000000000000000000000000000",
    "000000000000000000000f0000000000",
    "00000000000000000000000000000000",
    "0000000000f000000000000000000000",
    "0000000000000000000000000000000f",
    "f0000000000000000000000000000000",
    "00000000000000000000",
];

// The first lines of a frame of m13 whose signal is wrong.
const M13_LINES: [&str; 9] = [
    "show m13 frame 1: signal wrong",
    "tributary 1 controls 100 carries 672",
    "tributary 2 controls 100 carries 672",
    "tributary 3 controls 100 carries 672",
    "tributary 4 controls 100 carries 672",
    "tributary 5 controls 100 carries 672",
    "tributary 6 controls 100 carries 672",
    "tributary 7 controls 100 carries 672",
    "a5a5a5a5a5a5a5a5a5a5a5a5a5a5a5a5",
];

// The first lines of a frame of c13.
const C13_LINES: [&str; 9] = [
    "show c13 frame 1: signal wrong",
    "tributary 1 carries 671",
    "tributary 2 carries 671",
    "tributary 3 carries 671",
    "tributary 4 carries 671",
    "tributary 5 carries 671",
    "tributary 6 carries 671",
    "tributary 7 carries 671",
    "39393939393939393939393939393939",
];

// Whether a text begins with these lines.
fn begins_with(text: &[u8], lines: &[&str]) -> bool {
    let mut rest = text;
    for line in lines {
        let Some(after) = rest.strip_prefix(line.as_bytes()) else {
            return false;
        };
        let Some((feed, after)) = after.split_first() else {
            return false;
        };
        if *feed != b'\n' {
            return false;
        }
        rest = after;
    }
    true
}

// A port in memory whose list 0 gives the bits of these bytes.
fn port_of(alloc: Global, line: &[u8]) -> Result<MemPort, AllocError>
    ensures held { IfOk result (λ port. IsTrue ((⟦<MemPort as Feed>⟧.inputs port).holds 0)) }
    ensures left { IfOk result (λ port. (⟦<MemPort as Feed>⟧.inputs port).left 0 ≡ 8 * length line.now) }
{
    let mut lists = Vec::new(alloc);
    lists.push(Packed::of_bytes(alloc, line)?)?;
    MemPort::open(alloc, lists, 0)
}

// Writes the frame of e12 whose lines are `E12_LINES`.
fn write_e12(frame: &mut [u8])
    requires { length frame.old ≡ 106 }
{
    frame.fill(0);
    frame[0] = 0xf4;
    frame[1] = 0x10;
    frame[26] = 0x0f;
    frame[53] = 0xf0;
    frame[79] = 0x0f;
    frame[80] = 0xf0;
}

#[test]
fn frame_of_e12(rt: HostRuntime) -> Result<(), Fail> {
    let mut line = [0xff; 212];
    write_e12(&mut line[106..]);
    let mut port = port_of(rt.alloc(), &line)?;
    let text = show(rt.alloc(), Chain::E12, 1, &mut port)?;
    assert!(rt; begins_with(&text, &E12_LINES));
    assert!(rt; text.len() == 398);
    Ok(())
}

#[test]
fn frame_of_e12_between_two(rt: HostRuntime) -> Result<(), Fail> {
    let mut line = [0xff; 318];
    write_e12(&mut line[106..212]);
    let mut port = port_of(rt.alloc(), &line)?;
    let text = show(rt.alloc(), Chain::E12, 1, &mut port)?;
    assert!(rt; begins_with(&text, &E12_LINES));
    assert!(rt; text.len() == 398);
    assert!(rt; port.left(0) == 848);
    Ok(())
}

#[test]
fn frame_of_m13_with_a_wrong_signal(rt: HostRuntime) -> Result<(), Fail> {
    let mut line = [0x39; 1190];
    line[595..].fill(0xa5);
    let mut port = port_of(rt.alloc(), &line)?;
    let text = show(rt.alloc(), Chain::M13, 1, &mut port)?;
    assert!(rt; begins_with(&text, &M13_LINES));
    assert!(rt; text.ends_with(b"\na5a5a5\n"));
    Ok(())
}

#[test]
fn frame_of_c13(rt: HostRuntime) -> Result<(), Fail> {
    let mut line = [0xa5; 1190];
    line[595..].fill(0x39);
    let mut port = port_of(rt.alloc(), &line)?;
    let text = show(rt.alloc(), Chain::C13, 1, &mut port)?;
    assert!(rt; begins_with(&text, &C13_LINES));
    Ok(())
}
