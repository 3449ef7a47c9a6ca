//! Before whom a command does its work.

ghost use Rattle.std.specs.Prelude.{List, [], map};
ghost use Rattle.pdh_watch.specs.Monitors.{State};
ghost use Rattle.pdh_answers.specs.SlipLines.{LogState, log_state};
ghost use Rattle.pdh_runner.specs.Hearing.{no_log};

use pdh_answers::SinkLog;
use pdh_edge::Sink;
use pdh_watch::Monitor;

/// Those that a command shows its events, or tells its slips.
pub trait Audience {
    /// The monitors among them.
    ghost seen: { Self → List State };

    /// The log that is told slips.
    ghost heard: { Self → LogState };
}

/// No one.
#[derive(Clone, Copy, Debug, PartialEq, Eq)]
pub struct Nobody;

impl Audience for Nobody {
    ghost seen = { λ _. [] };

    ghost heard = { λ _. no_log };
}

impl<M: Monitor> Audience for Vec<M> {
    ghost seen = { λ monitors. map M.state monitors.items };

    ghost heard = { λ _. no_log };
}

impl<K: Sink> Audience for SinkLog<K> {
    ghost seen = { λ _. [] };

    ghost heard = { λ log. log_state (K.state log.out) log.told };
}
