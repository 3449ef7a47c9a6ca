//! `run`: the words to a command, the command to its answer, and the answer to its text and status.

ghost use Rattle.std.specs.Prelude.{map};
ghost use Rattle.std.specs.String.{string_bytes};
ghost use Rattle.pdh_words.specs.Commands.{command_of};
ghost use Rattle.pdh_ops.specs.Run.{Runs, Completes};
ghost use Rattle.pdh_ops.specs.GivesBack.{GivesBack};
ghost use Rattle.pdh_ops.specs.Rejoined.{AreRejoined};
ghost use Rattle.pdh_ops.specs.Packs.{Packs};
ghost use Rattle.pdh_ops.specs.Tolerated.{HasNoEvent, IsDelayed};
ghost use Rattle.pdh_ops.specs.Slips.{AreSlipped, HasNoSlip};
ghost use Rattle.pdh_ops.specs.InTime.{AreInTime};

use crate::commands::answer;
use pdh_answers::{SinkLog, report};
use pdh_edge::{Shelf, Sink};
use pdh_watch::Monitor;
use std::alloc::Global;

/// What a run answers: the program's status, and the shelf and the sink that it was handed.
#[derive(Drop)]
pub struct Ran<S, K> {
    pub status: u8,
    pub shelf: S,
    pub out: K,
}

/// Does all that the program does with its words (without its own name), over a shelf of files and
/// a sink for its text, and hands both back on every path. `inspect` shows the events of its line to
/// the monitors, and `duplex` those of the west terminal, and both write what each of them says; other
/// commands leave them. `muxslip` writes a line of each slip when it comes, before its text.
///
/// The clauses `runs`, `gives_back`, `no_event` and `delay` carry the headline: Where every tributary of
/// every multiplexer brings, over every run of k frames, between K·k-18 and (K+1)·k+18 bits, `mux` writes
/// a line from which `demux` puts out each leaf's bits exactly and in order, behind arrival by at most the
/// chain's stated delay, no elastic store passes 96 bits, and outside this tolerance the first overflow
/// or underflow ends the run, named by its place.
///
/// The statuses: 0, the command did its work; 1, memory was wanting; 2, the words are no row of the
/// table; 3, a call of the shelf failed to read; 4, a call of the shelf failed to write, or the sink
/// failed to take the text of status 0, or a line of a slip, behind which no text follows; 5, an input
/// isn't held; 6, the schedule's text has a fault; 7, the schedule has too few frames of a node below
/// the top, a leaf's file too few bits, or the line no such frame to show; 8, in `mux` an elastic store
/// overflows or underflows, and the line ends before the frame in whose making that happens; 9, the
/// script's text has a fault; 10, the line, or the schedule, drill or session that is asked for, has too
/// many frames; 11, no frame of the line, or in `e1unpack` no multiframe, was delivered, and the outputs hold
/// what the search gives; 12, the payload doesn't fill whole multiframes.
pub fn run<S: Shelf, K: Sink>(
    alloc: Global,
    words: &[String],
    shelf: S,
    out: K,
    monitors: &mut Vec<Box<dyn Monitor>>,
) -> Ran<S, K>
    ensures runs { Runs (command_of (map string_bytes words.now)) (S.state shelf) (S.state result.shelf) (K.state out) (K.state result.out) (map ⟦<Box<dyn Monitor> as Monitor>⟧.state monitors.old.items) (map ⟦<Box<dyn Monitor> as Monitor>⟧.state monitors.new.items) result.status }
    // What `mux` wrote, `demux` gives back in order.
    ensures gives_back { GivesBack (command_of (map string_bytes words.now)) (S.state shelf) (S.state result.shelf) result.status }
    // After the last error of a line, what `demux` puts out is what was sent.
    ensures rejoined { AreRejoined (command_of (map string_bytes words.now)) (S.state shelf) (S.state result.shelf) result.status }
    // What `e1pack` wrote is the packed line of its payload.
    ensures packs { Packs (command_of (map string_bytes words.now)) (S.state shelf) (S.state result.shelf) result.status }
    // Where each tributary of each node is within the tolerance, `mux` meets no event, and what its
    // line gives back is at most the chain's delay behind arrival.
    ensures no_event { HasNoEvent (command_of (map string_bytes words.now)) (S.state shelf) result.status }
    ensures delay { IsDelayed (command_of (map string_bytes words.now)) (S.state shelf) (S.state result.shelf) result.status }
    // Where no tributary above a leaf slips, `muxslip` carries the leaf's bits with the edits of its slips;
    // and where all are within the tolerance, nothing slips, and its line is that of `mux`.
    ensures slipped { AreSlipped (command_of (map string_bytes words.now)) (S.state shelf) (S.state result.shelf) result.status }
    ensures no_slip { HasNoSlip (command_of (map string_bytes words.now)) (S.state shelf) (S.state result.shelf) result.status }
    // What comes back in a drill is what was sent, in order, and at most the chain's delay behind arrival.
    ensures in_time { AreInTime (command_of (map string_bytes words.now)) result.status }
    // The same as the first, said of inputs that are told and of a shelf without faults.
    ensures completes { Completes (command_of (map string_bytes words.now)) (S.state shelf) (S.state result.shelf) (K.state out) (K.state result.out) (map ⟦<Box<dyn Monitor> as Monitor>⟧.state monitors.new.items) result.status }
{
    let mut log = SinkLog::new(out);
    let ended = answer(alloc, words, shelf, monitors, &mut log);
    let mut out = log.out;
    let status = report(&mut out, ended.answer, monitors);
    Ran {
        status,
        shelf: ended.shelf,
        out,
    }
}
