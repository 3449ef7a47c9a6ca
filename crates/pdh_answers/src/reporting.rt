//! The text of each stop, and the way of all texts to the sink, behind the lines of the monitors.

ghost use Rattle.std.specs.Prelude.{◌≡◌, ◌≤◌, ◌++◌, length, map, decimal, codes, OnOk, OnErr};
ghost use Rattle.pdh_line.specs.Paths.{steps_of, path_text};
ghost use Rattle.pdh_answers.specs.Names.{name_of};
ghost use Rattle.pdh_answers.specs.Answer.{stop_text as stop_of, usage_text as text_of_usage, place_text as place_of};
ghost use Rattle.pdh_edge.specs.Files.{Sends, FailsToSend};
ghost use Rattle.pdh_slips.specs.Logs.{slip_at};
ghost use Rattle.pdh_answers.specs.SlipLines.{slip_line as line_of_slip};
ghost use Rattle.pdh_answers.specs.Lines.{monitor_line, monitor_lines, whole_text, IsTold};

use crate::answer::{Done, Stop};
use crate::file::File;
use pdh_edge::{Failed, Sink};
use pdh_shape::{Path, Place};
use pdh_text::Text;
use pdh_watch::Monitor;

// A line of a part and a number.
#[tactic(auto, using(pdh_text::proofs::Lengths::digits))]
fn counted(part: &str, n: u64) -> Text
    requires { length part.now ≤ 100 }
    ensures { result ≡ part.now ++ decimal n ++ codes "\n" }
{
    let mut text = Text::new();
    text.text(part);
    text.number(n);
    text.text("\n");
    text
}

// A line of a part and a file's name.
fn named(part: &str, file: File) -> Text
    requires { length part.now ≤ 100 }
    ensures { result ≡ part.now ++ name_of file ++ codes "\n" }
{
    let mut text = Text::new();
    text.text(part);
    text.text(file.name().as_str());
    text.text("\n");
    text
}

// A line of a part and a place.
#[tactic(auto, using(pdh_text::proofs::Lengths::digits, pdh_text::proofs::Lengths::path_len))]
fn placed(part: &str, place: Place) -> Text
    requires { length part.now ≤ 100 }
    ensures { result ≡ part.now ++ place_of place ++ codes "\n" }
{
    let mut text = Text::new();
    text.text(part);
    text.path(&place.path);
    text.text(" tributary ");
    text.number(u64::from(place.trib));
    text.text(" frame ");
    text.number(place.frame);
    text.text(" slot ");
    text.number(u64::from(place.slot));
    text.text("\n");
    text
}

/// The line of a slip.
pub fn slip_line(over: bool, place: Place) -> Text
    ensures { result ≡ line_of_slip (slip_at over place) }
{
    if over {
        placed("slip over: ", place)
    } else {
        placed("slip under: ", place)
    }
}

// A line of a part alone.
fn plain(part: &str) -> Text
    requires { length part.now ≤ 200 }
    ensures { result ≡ part.now ++ codes "\n" }
{
    let mut text = Text::new();
    text.text(part);
    text.text("\n");
    text
}

// The line of a fault in a line of a text.
#[tactic(auto, using(pdh_text::proofs::Lengths::digits))]
fn faulty(place: &str, line: u32, fault: &str) -> Text
    requires place { length place.now ≤ 100 }
    requires fault { length fault.now ≤ 100 }
    ensures { result ≡ place.now ++ decimal line ++ fault.now ++ codes "\n" }
{
    let mut text = Text::new();
    text.text(place);
    text.number(u64::from(line));
    text.text(fault);
    text.text("\n");
    text
}

// The line of a count that is above the slots of a frame.
#[tactic(auto, using(pdh_text::proofs::Lengths::digits))]
fn over(line: u32, count: u64, most: u32) -> Text
    ensures { result ≡ codes "schedule: line " ++ decimal line ++ codes ": count " ++ decimal count ++ codes " over " ++ decimal most ++ codes "\n" }
{
    let mut text = Text::new();
    text.text("schedule: line ");
    text.number(u64::from(line));
    text.text(": count ");
    text.number(count);
    text.text(" over ");
    text.number(u64::from(most));
    text.text("\n");
    text
}

// The line of a line without an alignment.
#[tactic(auto, using(pdh_text::proofs::Lengths::digits))]
fn no_alignment(bits: u64) -> Text
    ensures { result ≡ codes "no alignment: " ++ decimal bits ++ codes " bits\n" }
{
    let mut text = Text::new();
    text.text("no alignment: ");
    text.number(bits);
    text.text(" bits\n");
    text
}

// The line of a payload that doesn't fill whole multiframes.
#[tactic(auto, using(pdh_text::proofs::Lengths::digits))]
fn not_whole(octets: u64) -> Text
    ensures { result ≡ codes "not a whole multiframe: " ++ decimal octets ++ codes " octets\n" }
{
    let mut text = Text::new();
    text.text("not a whole multiframe: ");
    text.number(octets);
    text.text(" octets\n");
    text
}

// The line of a file with too few bits.
#[tactic(auto, using(pdh_text::proofs::Lengths::digits))]
fn short(file: File, have: u64, need: u64) -> Text
    ensures { result ≡ codes "short: " ++ name_of file ++ codes ": have " ++ decimal have ++ codes " bits, need " ++ decimal need ++ codes "\n" }
{
    let mut text = Text::new();
    text.text("short: ");
    text.text(file.name().as_str());
    text.text(": have ");
    text.number(have);
    text.text(" bits, need ");
    text.number(need);
    text.text("\n");
    text
}

// The line of a node with too few frames.
#[tactic(auto, using(pdh_text::proofs::Lengths::digits, pdh_text::proofs::Lengths::path_len))]
fn short_node(node: Path, have: u64, need: u64) -> Text
    ensures { result ≡ codes "short: " ++ path_text (steps_of node) ++ codes ": have " ++ decimal have ++ codes " frames, need " ++ decimal need ++ codes "\n" }
{
    let mut text = Text::new();
    text.text("short: ");
    text.path(&node);
    text.text(": have ");
    text.number(have);
    text.text(" frames, need ");
    text.number(need);
    text.text("\n");
    text
}

// What is told of words that are no command.
fn usage() -> &'static str
    ensures text { result.now ≡ text_of_usage }
    ensures short { length result.now ≤ 200 }
{
    "usage: pdh mux demux clock inspect show e1pack e1unpack disturb drill muxslip ds1pack ds1unpack smooth duplex"
}

fn stop_text(stop: Stop) -> Text
    ensures { result ≡ stop_of stop }
{
    match stop {
        Stop::Memory => plain("memory"),
        Stop::Usage => plain(usage()),
        Stop::Read(file) => named("read fault: ", file),
        Stop::Write(file) => named("write fault: ", file),
        Stop::Missing(file) => named("missing: ", file),
        Stop::LongSchedule => plain("schedule: too long"),
        Stop::BadRow(line) => faulty("schedule: line ", line, ": bad row"),
        Stop::UnknownNode(line) => faulty("schedule: line ", line, ": unknown node"),
        Stop::CountOver(line, count, most) => over(line, count, most),
        Stop::ShortNode(node, have, need) => short_node(node, have, need),
        Stop::Short(file, have, need) => short(file, have, need),
        Stop::Overflow(place) => placed("overflow: ", place),
        Stop::Underflow(place) => placed("underflow: ", place),
        Stop::LongScript => plain("script: too long"),
        Stop::BadScriptRow(line) => faulty("script: line ", line, ": bad row"),
        Stop::PastEnd(line) => faulty("script: line ", line, ": past the end"),
        Stop::ManyFrames(frames) => counted("too many frames: ", frames),
        Stop::NoAlignment(bits) => no_alignment(bits),
        Stop::NotWhole(octets) => not_whole(octets),
        Stop::Unheard => Text::new(),
    }
}

// Writes what a monitor says, as a line.
fn write_line<K: Sink>(out: &mut K, monitor: &Box<dyn Monitor>) -> Result<(), Failed>
    ensures ok { OnOk result (Sends (monitor_line (⟦<Box<dyn Monitor> as Monitor>⟧.state monitor.now)) (K.state out.old) (K.state out.new)) }
    ensures err { OnErr result (FailsToSend (monitor_line (⟦<Box<dyn Monitor> as Monitor>⟧.state monitor.now)) (K.state out.old) (K.state out.new)) }
{
    let mut room = [0u8; 161];
    let len = monitor.line(&mut room[..160]);
    room[len] = b'\n';
    out.write(&room[..len + 1])
}

// Writes what each monitor says, a line each, and then a last line. A line that can't be written ends it.
fn write_lines<K: Sink>(
    out: &mut K,
    monitors: &[Box<dyn Monitor>],
    last: &[u8],
) -> Result<(), Failed>
    ensures ok { OnOk result (Sends (monitor_lines (map ⟦<Box<dyn Monitor> as Monitor>⟧.state monitors.now) ++ last.now) (K.state out.old) (K.state out.new)) }
    ensures err { OnErr result (FailsToSend (monitor_lines (map ⟦<Box<dyn Monitor> as Monitor>⟧.state monitors.now) ++ last.now) (K.state out.old) (K.state out.new)) }
{
    for place in 0..monitors.len() {
        write_line(out, &monitors[place])?;
    }
    out.write(last)
}

// Writes the text of what was done.
fn write_done<K: Sink>(
    out: &mut K,
    monitors: &[Box<dyn Monitor>],
    done: &Done,
) -> Result<(), Failed>
    ensures ok { OnOk result (Sends (whole_text (map ⟦<Box<dyn Monitor> as Monitor>⟧.state monitors.now) done.now) (K.state out.old) (K.state out.new)) }
    ensures err { OnErr result (FailsToSend (whole_text (map ⟦<Box<dyn Monitor> as Monitor>⟧.state monitors.now) done.now) (K.state out.old) (K.state out.new)) }
{
    match done {
        Done::Line(text) => out.write(text.bytes()),
        Done::Watched(last) => write_lines(out, monitors, last.bytes()),
        Done::Frame(text) => out.write(text.bytes()),
    }
}

/// Writes the text of an answer, that of an inspection behind the lines of the monitors, and answers the status.
pub fn report<K: Sink>(out: &mut K, answer: Result<Done, Stop>, monitors: &[Box<dyn Monitor>]) -> u8
    ensures { IsTold (map ⟦<Box<dyn Monitor> as Monitor>⟧.state monitors.now) answer (K.state out.old) (K.state out.new) result }
{
    match answer {
        Ok(done) => match write_done(out, monitors, &done) {
            Ok(()) => 0,
            Err(_) => 4,
        },
        Err(stop) => {
            let text = stop_text(stop);
            // A stop behind a line that couldn't be written has no text.
            if !text.bytes().is_empty() {
                let _ = out.write(text.bytes());
            }
            stop.status()
        }
    }
}
