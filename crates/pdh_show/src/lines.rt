//! The lines of which a frame's text is made.

ghost use Rattle.std.specs.Prelude.{◌≡◌, ◌<◌, ◌≤◌, ◌+◌, ◌^◌, ◌++◌, length};
ghost use Rattle.hex.specs.Hex.{encode_lower};
ghost use Rattle.pdh_show.specs.Shown.{ended, signal_line as signal_line_of, digit as digit_of, control_digits, controls_part, carried as carried_in, tributary_line as tributary_line_of};

use pdh_packed::Packed;
use pdh_runs::Layout;
use pdh_shape::Shape;
use pdh_text::Text;

/// The first line: the chain's name, the frame's number, and whether its alignment signal is right.
#[tactic(auto, using(pdh_text::proofs::Lengths::digits))]
pub fn signal_line(name: &str, number: u32, right: bool) -> Text
    requires short { length name.now ≤ 3 }
    ensures text { result ≡ ended (signal_line_of name.now number right) }
    ensures len { length result ≤ 320 }
{
    let mut line = Text::new();
    line.text("show ");
    line.text(name);
    line.text(" frame ");
    line.number(u64::from(number));
    line.text(": signal ");
    line.text(if right { "right" } else { "wrong" });
    line.text("\n");
    line
}

// A bit as a digit.
fn digit(bit: bool) -> &'static str
    ensures digit { result.now ≡ digit_of bit }
    ensures len { length result.now ≡ 1 }
{
    if bit { "1" } else { "0" }
}

// Appends the copies of a tributary's justification control in a frame, in slot order.
fn append_copies<S: Shape>(line: &mut Text, trib: u8, frame: &Packed)
    requires room { length line.old + S.COPIES ≤ 320 }
    requires known { trib < S.TRIBS }
    requires whole { length frame.now.bits ≡ S.LEN }
    ensures digits { line.new ≡ line.old ++ control_digits S.shape frame.now.bits trib }
    ensures len { length line.new ≡ length line.old + S.COPIES }
{
    for slot in 0..S::LEN {
        if S::role(slot).controls(trib) {
            line.text(digit(frame.get(slot as usize)));
        }
    }
}

// Appends what a tributary's line tells of them.
fn append_controls<S: Shape>(line: &mut Text, trib: u8, frame: &Packed)
    requires room { length line.old ≤ 30 }
    requires known { trib < S.TRIBS }
    requires whole { length frame.now.bits ≡ S.LEN }
    ensures part { line.new ≡ line.old ++ controls_part S.shape frame.now.bits trib }
    ensures len { length line.new ≤ length line.old + 265 }
{
    if S::COPIES > 0 {
        line.text(" controls ");
        append_copies::<S>(line, trib, frame);
    }
}

// How many bits of a tributary a frame carries.
fn carried<S: Shape>(layout: &Layout<S>, trib: u8, frame: &Packed) -> u64
    requires known { trib < S.TRIBS }
    requires whole { length frame.now.bits ≡ S.LEN }
    ensures value { result ≡ carried_in S.shape frame.now.bits trib }
    ensures few { result ≤ 2 ^ 32 }
{
    let low = u64::from(S::LOW);
    if layout.carries_more(trib, frame) {
        low + 1
    } else {
        low
    }
}

/// The line of a tributary: the copies of its justification control, and how many bits of it the frame carries.
pub fn tributary_line<S: Shape>(layout: &Layout<S>, trib: u8, frame: &Packed) -> Text
    requires known { trib < S.TRIBS }
    requires whole { length frame.now.bits ≡ S.LEN }
    ensures text { result ≡ ended (tributary_line_of S.shape frame.now.bits trib) }
    ensures len { length result ≤ 320 }
{
    let mut line = Text::new();
    line.text("tributary ");
    line.number(u64::from(trib) + 1);
    append_controls::<S>(&mut line, trib, frame);
    line.text(" carries ");
    line.number(carried::<S>(layout, trib, frame));
    line.text("\n");
    line
}

/// A line of bytes in hexadecimal.
pub fn bytes_line(bytes: &[u8]) -> Text
    requires { length bytes.now ≤ 16 }
    ensures text { result ≡ ended (encode_lower bytes.now) }
    ensures len { length result ≤ 33 }
{
    let mut line = Text::new();
    line.hex(bytes);
    line.text("\n");
    line
}
