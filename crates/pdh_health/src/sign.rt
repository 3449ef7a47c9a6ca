//! What an event is to the course of its node.

ghost use Rattle.std.specs.Prelude.{◌≡◌};
ghost use Rattle.pdh_health.specs.Signs.{turn_of_kind, sign_of_kind};

use pdh_timeline::State;
use pdh_watch::Kind;

/// What an event is to the course of its node.
#[derive(Clone, Copy)]
pub enum Sign {
    /// A state begins.
    Begin(State),
    /// A state ends.
    End(State),
    /// A block is errored.
    Block,
    /// The far end tells an error.
    Told,
    /// The far end sends a code.
    Coded,
    /// None of these.
    Other,
}

// What begins or ends with an event of a kind.
fn turn_of(kind: Kind) -> Sign
    ensures { result ≡ turn_of_kind kind }
{
    if kind == Kind::LOST {
        Sign::Begin(State::Out)
    } else if kind == Kind::ALIGNED {
        Sign::End(State::Out)
    } else if kind == Kind::AIS_ON {
        Sign::Begin(State::Ais)
    } else if kind == Kind::AIS_OFF {
        Sign::End(State::Ais)
    } else if kind == Kind::ALARM_ON {
        Sign::Begin(State::Alarm)
    } else if kind == Kind::ALARM_OFF {
        Sign::End(State::Alarm)
    } else {
        Sign::Other
    }
}

// What an event of a kind is to the course of its node.
pub(crate) fn sign_of(kind: Kind) -> Sign
    ensures { result ≡ sign_of_kind kind }
{
    if kind == Kind::PARITY || kind == Kind::PATH_PARITY || kind == Kind::CRC {
        Sign::Block
    } else if kind == Kind::FEBE || kind == Kind::EBIT {
        Sign::Told
    } else if kind == Kind::FEAC {
        Sign::Coded
    } else {
        turn_of(kind)
    }
}
