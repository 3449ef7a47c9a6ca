//! What is reported of a node.

ghost use Rattle.std.specs.Prelude.{◌≡◌};
ghost use Rattle.pdh_report.specs.Troubles.{has_trouble};

use serde::Serialize;

/// What is reported of a node of a chain. Lengths are in bits of the recording.
#[derive(Debug, Drop, PartialEq, Serialize)]
pub struct NodeReport<'a> {
    /// Its path, as `/2/3`.
    pub node: &'a str,
    /// Its level, as `E2`.
    pub level: &'a str,
    /// The frames that were delivered.
    pub frames: u64,
    /// How often it was aligned.
    pub aligned: u64,
    /// How often its alignment was lost.
    pub lost: u64,
    /// The delivered frames in which an alignment bit was wrong, and which lost no alignment.
    pub bad: u64,
    /// How long it was out of alignment.
    pub out_bits: u64,
    /// The longest time out of alignment.
    pub out_longest_bits: u64,
    /// How often AIS began.
    pub ais: u64,
    /// How long AIS stood.
    pub ais_bits: u64,
    /// How often a remote alarm began.
    pub alarm: u64,
    /// How long a remote alarm stood.
    pub alarm_bits: u64,
    /// Frames with wrong parity.
    pub parity: u64,
    /// Frames with wrong path parity.
    pub path_parity: u64,
    /// Block errors that the far end told.
    pub febe: u64,
    /// Codes of the far end alarm and control channel.
    pub feac: u64,
    /// Blocks with a wrong check.
    pub crc: u64,
    /// Wrong checks that the far end told.
    pub ebit: u64,
    /// Errored blocks: those with wrong parity, path parity or check.
    pub errored_blocks: u64,
    /// Errored seconds outside unavailable time.
    pub es: u64,
    /// Severely errored seconds outside unavailable time.
    pub ses: u64,
    /// Unavailable seconds; none can be told in less than ten.
    pub uas: Option<u64>,
    /// Seconds outside unavailable time in which the far end told an error.
    pub far_es: u64,
    /// It was never aligned, and so few bits came that it couldn't be.
    #[serde(skip_serializing)]
    pub too_short: bool,
}

impl<'a> NodeReport<'a> {
    /// Whether something is wrong with it: it was out of alignment, had a wrong alignment bit, or had an event but that it was
    /// aligned.
    pub fn has_trouble(&self) -> bool
        ensures { result ≡ has_trouble self.now }
    {
        let framing = self.lost > 0 || self.bad > 0 || self.out_bits > 0;
        let states = self.ais > 0 || self.alarm > 0;
        let near = self.parity > 0 || self.path_parity > 0 || self.crc > 0;
        let far = self.febe > 0 || self.feac > 0 || self.ebit > 0;
        framing || states || near || far
    }
}
