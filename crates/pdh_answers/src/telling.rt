//! The log of the program: each slip is a line on the sink.

ghost use Rattle.std.specs.Prelude.{◌≡◌};

use crate::reporting::slip_line;
use pdh_edge::{Failed, Sink};
use pdh_shape::Place;
use pdh_slips::SlipLog;

/// Tells each slip as a line on a sink, and counts them.
#[derive(Drop)]
pub struct SinkLog<K: Sink> {
    /// The sink.
    pub out: K,
    /// How many slips it was told of. It stands at `u64::MAX` once there.
    pub told: u64,
}

impl<K: Sink> SinkLog<K> {
    /// Over this sink, told of none.
    pub fn new(out: K) -> SinkLog<K>
        ensures out { result.out ≡ out }
        ensures told { result.told ≡ 0 }
    {
        SinkLog { out, told: 0 }
    }
}

impl<K: Sink> SlipLog for SinkLog<K> {
    ghost use Rattle.std.specs.Prelude.{true};
    ghost use Rattle.pdh_answers.specs.SlipLines.{log_state, TellsLines, BreaksLines};
    ghost use Rattle.pdh_answers.specs.laws.SlipLineLaws.{faults_of, told_nothing, told_join, breaks_behind, told_count, breaks_count};

    ghost takes = { true };

    ghost log_faults = { λ a. faults_of (log_state (K.state a.out) a.told) };

    ghost logged = { λ a slips b. TellsLines (log_state (K.state a.out) a.told) slips (log_state (K.state b.out) b.told) };

    ghost broken = { λ a slips b. BreaksLines (log_state (K.state a.out) a.told) slips (log_state (K.state b.out) b.told) };

    ghost logged_nothing = { λ a. told_nothing (log_state (K.state a.out) a.told) };

    ghost logged_join = { λ a b c xs ys p q. told_join (log_state (K.state a.out) a.told) (log_state (K.state b.out) b.told) (log_state (K.state c.out) c.told) xs ys p q };

    ghost broken_join = { λ a b c xs ys p q. breaks_behind (log_state (K.state a.out) a.told) (log_state (K.state b.out) b.told) (log_state (K.state c.out) c.told) xs ys p q };

    ghost logged_faults = { λ a b xs p. told_count (log_state (K.state a.out) a.told) (log_state (K.state b.out) b.told) xs p };

    ghost broken_faults = { λ a b xs p. breaks_count (log_state (K.state a.out) a.told) (log_state (K.state b.out) b.told) xs p };

    fn takes(&self) -> bool {
        true
    }

    fn log_faults(&self) -> u64 {
        self.out.faults()
    }

    fn slip(&mut self, over: bool, place: &Place) -> Result<(), Failed> {
        match self.out.write(slip_line(over, *place).bytes()) {
            Ok(()) => {
                self.told = self.told.saturating_add(1);
                Ok(())
            }
            Err(Failed) => Err(Failed),
        }
    }
}
