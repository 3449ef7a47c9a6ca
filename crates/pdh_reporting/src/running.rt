//! A run of the program.

ghost use Rattle.std.specs.Prelude.{◌≤◌, IfOk};
ghost use Rattle.pdh_recording.specs.Given.{bits_left};
ghost use Rattle.pdh_named_lines.specs.Lines.{meaning_of, IsFollowedAs};

use crate::chosen::{Choice, Chosen};
use crate::files::{Handles, begin_all};
use crate::looking::choose;
use crate::progress::ProgressLine;
use crate::stop::Stop;
use crate::telling::{Told, constant_text, nothing_text, tell};
use pdh_following::Followed;
use pdh_named_lines::{Wanted, follow_named};
use pdh_outputs::OutputFiles;
use pdh_recording::{Opened, Source, open};
use pdh_report_words::{Refusal, Request, read_words};
use std::alloc::Global;
use std::fs::Files;
use std::io::Read;

// The statuses of a run that told something, or was shown what it is.
const HEALTHY: u8 = 0;

const UNHEALTHY: u8 = 1;

// What a run is given beside its words.
#[derive(Drop)]
struct Surroundings<'r, R: Drop> {
    rt: &'r R,
    alloc: Global,
    shows_progress: bool,
}

// Reads the recording to its end as it was chosen, and shows how far it has come.
fn follow_chosen<'a, R: Files + Input + Eprint + Drop>(
    around: &Surroundings<'_, R>,
    request: &Request<'a>,
    chosen: &Chosen,
    opened: &mut Opened<Source<R::File, R::Reader>>,
    events: Option<R::File>,
) -> Result<Followed<R::File>, Stop<'a>>
    ensures { IfOk result (λ followed. IsFollowedAs R.File.contents (meaning_of chosen.now.word) chosen.now.word request.now.from
        (bits_left ⟦<Source<R::File, R::Reader> as Read>⟧.remaining chosen.now.order opened.old.recording) events followed) }
{
    let mut progress = ProgressLine {
        alloc: around.alloc,
        rt: around.rt,
        file: request.file,
        bits: opened.bits,
        shown: around.shows_progress,
        next: 0,
        width: 0,
    };
    let wanted = Wanted {
        word: chosen.word,
        order: chosen.order,
        from: request.from,
        events,
    };
    let followed = follow_named(around.alloc, wanted, &mut opened.recording, &mut progress);
    progress.wipe();
    followed.map_err(|fault| Stop::of_following(fault, request.outputs.events))
}

// Reads the recording to its end and tells what was found.
fn read_chosen<'a, R: Files + Input + Eprint + Drop>(
    around: &Surroundings<'_, R>,
    request: &Request<'a>,
    chosen: &Chosen,
    opened: &mut Opened<Source<R::File, R::Reader>>,
    outputs: &mut OutputFiles<'a>,
    handles: Handles<R::File>,
) -> Result<Told, Stop<'a>> {
    let mut handles = handles;
    let events = handles.events.take();
    let followed = follow_chosen(around, request, chosen, opened, events)?;
    let told = tell(around.alloc, request, chosen, &followed.line, &mut handles)?;
    outputs.take_names(around.rt)?;
    Ok(told)
}

// Looks at the recording, and tells what it is and what happened on it.
fn look_and_read<'a, R: Files + Input + Eprint + Drop>(
    around: &Surroundings<'_, R>,
    request: &Request<'a>,
    opened: &mut Opened<Source<R::File, R::Reader>>,
    outputs: &mut OutputFiles<'a>,
) -> Result<Told, Stop<'a>> {
    let handles = begin_all(around.rt, outputs, &request.outputs)?;
    opened.recording.read_part()?;
    let healthy = false;
    let text = match choose(around.alloc, request, &opened.recording.part())? {
        Choice::Read(chosen) => {
            return read_chosen(around, request, &chosen, opened, outputs, handles);
        }
        Choice::Nothing(bits, nearest) => nothing_text(around.alloc, bits, &nearest)?,
        Choice::Constant(byte) => constant_text(around.alloc, byte)?,
    };
    outputs.remove(around.rt);
    Ok(Told { text, healthy })
}

// Does what the words ask for, and answers the status.
fn report<'a, R: Files + Input + Print + Eprint + Drop>(
    around: &Surroundings<'_, R>,
    request: &Request<'a>,
) -> Result<u8, Stop<'a>>
    ensures { IfOk result (λ status. status ≤ 1) }
{
    let mut opened = open(
        around.rt,
        around.alloc,
        request.file,
        request.from,
        request.bits,
    )?;
    let mut outputs = OutputFiles::new(around.alloc, opened.data.as_ref());
    let told = match look_and_read(around, request, &mut opened, &mut outputs) {
        Ok(told) => told,
        Err(stop) => {
            outputs.remove(around.rt);
            return Err(stop);
        }
    };
    let text = told.text.as_str();
    if print!(around.rt; "{text}").is_err() {
        return Err(Stop::Unprinted);
    }
    Ok(if told.healthy { HEALTHY } else { UNHEALTHY })
}

// Tells why the words ask for nothing, and answers the status.
fn refuse<R: Print + Eprint>(rt: &R, refusal: &Refusal) -> u8
    ensures { result ≤ 3 }
{
    let stop = match refusal {
        Refusal::Told(error) => {
            if error.print(rt).is_ok() || error.use_stderr() {
                return if error.use_stderr() { 2 } else { HEALTHY };
            }
            Stop::Unprinted
        }
        Refusal::OneFile(one, other) => Stop::OneFile(*one, *other),
        Refusal::OutOfMemory => Stop::OutOfMemory,
    };
    stop.print(rt, "");
    stop.status()
}

/// Runs the program with its words, the first of which is its name, and answers the status with which it ends: 0 where the line is
/// healthy, or help or the version was asked for; 1 where something is wrong with it, or nothing was found; 2 where the words are
/// wrong; 3 where a file couldn't be read or written, there were no bits, or memory was wanting. Progress is shown on the standard
/// error if that is wanted.
pub fn run<R: Files + Input + Print + Eprint + Drop>(
    rt: &R,
    alloc: Global,
    words: &[String],
    shows_progress: bool,
) -> u8
    ensures { result ≤ 3 }
{
    let request = match read_words(alloc, words) {
        Ok(request) => request,
        Err(refusal) => return refuse(rt, &refusal),
    };
    let around = Surroundings {
        rt,
        alloc,
        shows_progress,
    };
    match report(&around, &request) {
        Ok(status) => status,
        Err(stop) => {
            stop.print(rt, request.file);
            stop.status()
        }
    }
}
