//! The one place that tells the commands apart: each is a record or a call of `pdh_making`, `pdh_recorded`, `pdh_linking` or
//! `pdh_streams`.

ghost use Rattle.std.specs.Prelude.{◌≡◌, map};
ghost use Rattle.std.specs.String.{string_bytes};
ghost use Rattle.pdh_words.specs.Commands.{command_of};
ghost use Rattle.pdh_answers.specs.SlipLines.{log_state};
ghost use Rattle.pdh_ops.specs.Run.{Does, Watches, Hears};

use pdh_answers::{SinkLog, Stop};
use pdh_edge::{Shelf, Sink};
use pdh_linking::duplex;
use pdh_making::{Mux, MuxSlip, clock, drill};
use pdh_recorded::{Demux, Disturb, Inspect, Show, Smooth};
use pdh_runner::{Ended, Nobody, perform};
use pdh_streams::{InspectE1, PackDs1, UnpackDs1, pack_e1, unpack_e1};
use pdh_watch::Monitor;
use pdh_words::{Command, command_for};
use std::alloc::Global;

/// Does what the words command, and tells the log the slips of `muxslip`.
pub fn answer<S: Shelf, K: Sink>(
    alloc: Global,
    words: &[String],
    mut shelf: S,
    monitors: &mut Vec<Box<dyn Monitor>>,
    log: &mut SinkLog<K>,
) -> Ended<S>
    requires fresh { log.old.told ≡ 0 }
    ensures does { Does (command_of (map string_bytes words.now)) (S.state shelf) (S.state result.shelf) result.answer }
    ensures watches { Watches (command_of (map string_bytes words.now)) (S.state shelf) (S.state result.shelf) result.answer (map ⟦<Box<dyn Monitor> as Monitor>⟧.state monitors.old.items) (map ⟦<Box<dyn Monitor> as Monitor>⟧.state monitors.new.items) }
    ensures hears { Hears (command_of (map string_bytes words.now)) (S.state shelf) result.answer (log_state (K.state log.old.out) log.old.told) (log_state (K.state log.new.out) log.new.told) }
{
    let Some(command) = command_for(words) else {
        return Ended::new(shelf, Err(Stop::Usage));
    };
    match command {
        Command::Demux { chain, bits } => perform(
            alloc,
            &Demux { chain, bits },
            shelf,
            &mut Nobody,
        ),
        Command::Mux { chain, feac } => perform(alloc, &Mux { chain, feac }, shelf, &mut Nobody),
        Command::MuxSlip { chain } => perform(alloc, &MuxSlip { chain }, shelf, log),
        Command::Inspect { chain, bits } => perform(
            alloc,
            &Inspect { chain, bits },
            shelf,
            monitors,
        ),
        Command::InspectE1 => perform(alloc, &InspectE1, shelf, monitors),
        Command::Show { chain, frame } => perform(
            alloc,
            &Show { chain, frame },
            shelf,
            &mut Nobody,
        ),
        Command::Smooth { chain } => perform(alloc, &Smooth { chain }, shelf, &mut Nobody),
        Command::Disturb { chain } => perform(alloc, &Disturb { chain }, shelf, &mut Nobody),
        Command::ClockCheck { chain } => {
            let answer = clock::check(alloc, chain, &mut shelf);
            Ended::new(shelf, answer)
        }
        Command::ClockMake {
            chain,
            frames,
            bias,
        } => {
            let answer = clock::make(alloc, chain, frames, bias, &mut shelf);
            Ended::new(shelf, answer)
        }
        Command::E1Pack => {
            let answer = pack_e1(alloc, &mut shelf);
            Ended::new(shelf, answer)
        }
        Command::E1Unpack => {
            let answer = unpack_e1(alloc, &mut shelf);
            Ended::new(shelf, answer)
        }
        Command::Ds1Pack { frame } => perform(alloc, &PackDs1 { form: frame }, shelf, &mut Nobody),
        Command::Ds1Unpack { frame } => perform(
            alloc,
            &UnpackDs1 { form: frame },
            shelf,
            &mut Nobody,
        ),
        Command::Drill {
            chain,
            seed,
            frames,
        } => Ended::new(shelf, drill(alloc, chain, seed, frames)),
        Command::Duplex {
            chain,
            seed,
            frames,
        } => {
            let answer = duplex(alloc, chain, seed, frames, &mut shelf, monitors);
            Ended::new(shelf, answer)
        }
    }
}
