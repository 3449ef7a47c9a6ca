//! What callers may rely on of answers, of files' names and of the log of slips.

ghost use Rattle.std.specs.Prelude.{◌≡◌, ◌+◌, ◌<◌, ◌^◌, ◌⊎◌, [], ◌++◌, codes, OnOk};
ghost use Rattle.pdh_edge.specs.Files.{Sends, FailsToSend};
ghost use Rattle.pdh_answers.specs.Answer.{place_text};
ghost use Rattle.pdh_answers.specs.declared.file.File.TheVariants.{Bent};
ghost use Rattle.pdh_answers.specs.declared.answer.Stop.TheVariants.{PastEnd};

use pdh_answers::{Bits, File, Name, SinkLog, Stop, report};
use pdh_edge::{Failed, Sink};
use pdh_script::ScriptFault;
use pdh_shape::Place;
use pdh_slips::SlipLog;
use pdh_watch::Monitor;

/// The disturbed line is read from its own file.
pub fn bent_line_read_from_the_line() -> File
    ensures { result ≡ Bent }
{
    File::of_line(Bits::Bent)
}

/// The script of the east terminal has its own name.
#[tactic(auto, unfolding(pdh_answers::specs::Names::east_name))]
pub fn east_script_named_as_west() -> Name
    ensures { result.bytes ≡ codes "east.txt" }
{
    File::East.name()
}

/// The file of the first output is numbered 01.
#[tactic(auto, unfolding(pdh_answers::specs::Names::numbered_name))]
pub fn numbers_outputs_from_zero() -> Name
    ensures { result.bytes ≡ codes "o01.bits" }
{
    File::Output(0).name()
}

/// A row past the end isn't told as a bad row.
pub fn past_the_end_told_as_a_bad_row(line: u32) -> Stop
    ensures { result ≡ PastEnd line }
{
    Stop::from(ScriptFault::PastEnd { line })
}

/// A slip that is told is counted once.
pub fn slip_counted_before_it_is_told<K: Sink>(
    log: &mut SinkLog<K>,
    over: bool,
    place: &Place,
) -> Result<(), Failed>
    requires { log.old.told + 1 < 2 ^ 64 }
    ensures { OnOk result (log.new.told ≡ log.old.told + 1) }
{
    log.slip(over, place)
}

/// An overflow is told as one.
pub fn slip_over_told_as_under<K: Sink>(log: &mut SinkLog<K>, place: &Place) -> Result<(), Failed>
    ensures { OnOk result (Sends ((codes "slip over: " ++ place_text place.now ++ codes "\n") ++ [])
        (K.state log.old.out) (K.state log.new.out)) }
{
    log.slip(true, place)
}

/// An input that isn't held is told as missing, by its name.
#[tactic(auto, unfolding(pdh_answers::specs::Names::schedule_name))]
pub fn tells_another_cause<K: Sink>(out: &mut K, monitors: &[Box<dyn Monitor>]) -> u8
    ensures status { result ≡ 5 }
    ensures text { Sends (codes "missing: schedule.txt\n") (K.state out.old) (K.state out.new)
        ⊎ FailsToSend (codes "missing: schedule.txt\n") (K.state out.old) (K.state out.new) }
{
    report(out, Err(Stop::Missing(File::Schedule)), monitors)
}

/// Behind the line of a slip that couldn't be written nothing is written.
pub fn text_after_a_failed_slip_line<K: Sink>(out: &mut K, monitors: &[Box<dyn Monitor>]) -> u8
    ensures status { result ≡ 4 }
    ensures none { K.state out.new ≡ K.state out.old }
{
    report(out, Err(Stop::Unheard), monitors)
}
