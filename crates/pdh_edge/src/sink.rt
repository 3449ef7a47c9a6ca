//! An output of bytes as a trait.

ghost use Rattle.std.specs.Prelude.{◌≡◌, OnOk, OnErr};
ghost use Rattle.pdh_edge.specs.Files.{SinkState, Sends, FailsToSend};

use crate::Failed;

/// An output of bytes. A call that failed is counted once, a call that succeeded isn't; the count of
/// its faults stands at `u64::MAX` once there.
pub trait Sink: Drop {
    /// What the sink tells and counts.
    ghost state: { Self → SinkState };

    /// How many calls failed.
    fn faults(&self) -> u64
        ensures { result ≡ (state self.now).faults };

    /// Writes all the bytes. After a failure a prefix of them was written.
    fn write(&mut self, bytes: &[u8]) -> Result<(), Failed>
        ensures ok { OnOk result (Sends bytes.now (state self.old) (state self.new)) }
        ensures err { OnErr result (FailsToSend bytes.now (state self.old) (state self.new)) };
}
