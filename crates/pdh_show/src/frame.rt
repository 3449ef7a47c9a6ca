//! The showing of a frame of any shape: all memory first, then the frames up to it, then its text.

ghost use Rattle.std.specs.Prelude.{◌≡◌, ◌≤◌, ◌+◌, ◌*◌, ◌/◌, ◌%◌, ◌++◌, suc, length, IsTrue, IfOk, Err};
ghost use Rattle.std.specs.List.{flat_map};
ghost use Rattle.pdh_bits.specs.Bits.{bits_of};
ghost use Rattle.pdh_show.specs.Shown.{ended, tributary_lines, bytes_lines, shown_frame};
ghost use Rattle.pdh_show.specs.Texts.{text_room, bytes_room};
ghost use Rattle.pdh_show.specs.Showing.{ShowsFrame, faults_shown};
ghost use Rattle.pdh_show.specs.declared.stop.ShowStop.TheVariants.{Memory};

use crate::lines::{bytes_line, signal_line, tributary_line};
use crate::reading::take_frame;
use crate::signal::is_right;
use crate::stop::ShowStop;
use crate::text::Lines;
use pdh_edge::Feed;
use pdh_packed::Packed;
use pdh_runs::Layout;
use pdh_shape::Shape;
use std::alloc::Global;

// How many bytes stand on a line.
const BYTES_A_LINE: usize = 16;

// For how many bytes a line of bytes needs room: two digits for each, and its end.
const BYTES_LINE: usize = 33;

// For how many bytes any other line needs room.
const LINE: usize = 320;

// Appends the lines of the tributaries.
fn append_tributaries<S: Shape>(text: &mut Lines, layout: &Layout<S>, frame: &Packed)
    requires room { length text.old.text + 320 * S.TRIBS ≤ text.old.capacity }
    requires whole { length frame.now.bits ≡ S.LEN }
    ensures lines { text.new.text ≡ text.old.text ++ flat_map ended (tributary_lines S.shape frame.now.bits) }
    ensures len { length text.new.text ≤ length text.old.text + 320 * S.TRIBS }
    ensures capacity { text.new.capacity ≡ text.old.capacity }
{
    for trib in 0..S::TRIBS {
        text.append(&tributary_line::<S>(layout, trib, frame));
    }
}

// Appends the lines of the bytes.
fn append_bytes(text: &mut Lines, bytes: &[u8])
    requires { length text.old.text + bytes_room (length bytes.now) ≤ text.old.capacity }
    ensures { text.new.text ≡ text.old.text ++ flat_map ended (bytes_lines bytes.now) }
{
    for number in 0..bytes.len().div_ceil(BYTES_A_LINE) {
        let start = BYTES_A_LINE * number;
        let end = bytes.len().min(start + BYTES_A_LINE);
        text.append(&bytes_line(&bytes[start..end]));
    }
}

// Appends all lines of a frame, by its bits and its bytes.
fn append_frame<S: Shape>(
    text: &mut Lines,
    name: &str,
    number: u32,
    layout: &Layout<S>,
    frame: &Packed,
    bytes: &[u8],
)
    requires short { length name.now ≤ 3 }
    requires room { length text.old.text + text_room S.TRIBS (length bytes.now) ≤ text.old.capacity }
    requires whole { length frame.now.bits ≡ S.LEN }
    requires same { frame.now.bits ≡ bits_of bytes.now }
    ensures { text.new.text ≡ text.old.text ++ shown_frame S.shape name.now number bytes.now }
{
    text.append(&signal_line(name, number, is_right::<S>(frame)));
    append_tributaries::<S>(text, layout, frame);
    append_bytes(text, bytes);
}

// For how many bytes the text of a frame needs room.
fn text_room<S: Shape>() -> usize
    ensures { result ≡ text_room S.TRIBS (S.LEN / 8) }
{
    LINE + LINE * usize::from(S::TRIBS) + BYTES_LINE * (S::LEN as usize / 8).div_ceil(BYTES_A_LINE)
}

/// Takes the frames of list 0 of a feed up to one of this number, and answers its text. It takes all its memory before it takes
/// a bit.
pub fn shown_as<S: Shape, F: Feed>(
    alloc: Global,
    name: &str,
    number: u32,
    feed: &mut F,
) -> Result<Vec<u8>, ShowStop>
    requires short { length name.now ≤ 3 }
    requires whole { S.LEN % 8 ≡ 0 }
    requires line { IsTrue ((F.inputs feed.old).holds 0) }
    requires long { suc number * S.LEN ≤ (F.inputs feed.old).left 0 }
    ensures fed { F.fed feed.old feed.new }
    ensures faults { F.feed_faults feed.new ≡ faults_shown result (F.feed_faults feed.old) }
    ensures ok { IfOk result (λ text. ShowsFrame S.shape name.now number text.items
        (F.inputs feed.old) (F.inputs feed.new)) }
    ensures memory { result ≡ Err Memory → F.inputs feed.new ≡ F.inputs feed.old }
{
    let len = S::LEN as usize;
    let mut frame = Packed::open(alloc, len)?;
    let mut bytes = vec![in alloc; 0u8; len / 8]?;
    let layout = Layout::<S>::open(alloc)?;
    let mut text = Lines::open(alloc, text_room::<S>())?;
    let Ok(()) = take_frame(number, &mut frame, feed) else {
        return Err(ShowStop::Failed);
    };
    frame.write_bytes(0, &mut bytes);
    append_frame::<S>(&mut text, name, number, &layout, &frame, &bytes);
    Ok(text.into_text())
}
