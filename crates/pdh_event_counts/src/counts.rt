//! Counts of events.

ghost use Rattle.std.specs.Prelude.{◌≡◌, ◌∷◌, ◌++◌, [], List};
ghost use Rattle.pdh_watch.specs.declared.kind.Kind.{Kind};
ghost use Rattle.pdh_event_counts.specs.Counting.{count_with, counts_of};

use pdh_watch::Kind;

/// How many events of each kind there were. A count stands at `u64::MAX`.
#[derive(Clone, Copy, Debug, PartialEq, Eq)]
pub struct Counts {
    /// Alignments.
    pub aligned: u64,
    /// Losses of alignment.
    pub lost: u64,
    /// Beginnings of AIS.
    pub ais: u64,
    /// Beginnings of a remote alarm.
    pub alarm: u64,
    /// Frames with wrong parity.
    pub parity: u64,
    /// Frames with wrong path parity.
    pub path_parity: u64,
    /// Block errors that the far end told.
    pub febe: u64,
    /// Codes of the far end alarm and control channel.
    pub feac: u64,
    /// Blocks with a wrong check.
    pub crc: u64,
    /// Wrong checks that the far end told.
    pub ebit: u64,
}

// A count of the events of a kind, with an event of some kind more.
fn count(wanted: Kind, number: u64, kind: Kind) -> u64
    ensures { result ≡ count_with wanted number kind }
{
    if kind == wanted {
        number.saturating_add(1)
    } else {
        number
    }
}

impl Counts {
    /// No event has come.
    pub fn none() -> Counts
        ensures { result ≡ counts_of [] }
    {
        Counts {
            aligned: 0,
            lost: 0,
            ais: 0,
            alarm: 0,
            parity: 0,
            path_parity: 0,
            febe: 0,
            feac: 0,
            crc: 0,
            ebit: 0,
        }
    }

    /// With an event of a kind more.
    pub fn plus(self, kind: Kind) -> Counts
        ensures { (kinds : List Kind) → self ≡ counts_of kinds → result ≡ counts_of (kinds ++ kind ∷ []) }
    {
        let aligned = count(Kind::ALIGNED, self.aligned, kind);
        let lost = count(Kind::LOST, self.lost, kind);
        let ais = count(Kind::AIS_ON, self.ais, kind);
        let alarm = count(Kind::ALARM_ON, self.alarm, kind);
        let parity = count(Kind::PARITY, self.parity, kind);
        let path_parity = count(Kind::PATH_PARITY, self.path_parity, kind);
        let febe = count(Kind::FEBE, self.febe, kind);
        let feac = count(Kind::FEAC, self.feac, kind);
        let crc = count(Kind::CRC, self.crc, kind);
        let ebit = count(Kind::EBIT, self.ebit, kind);
        Counts {
            aligned,
            lost,
            ais,
            alarm,
            parity,
            path_parity,
            febe,
            feac,
            crc,
            ebit,
        }
    }
}
