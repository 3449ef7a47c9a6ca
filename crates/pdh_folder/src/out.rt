//! The standard output.
ghost use Rattle.std.specs.Prelude.{◌≡◌, OnOk, OnErr};
ghost use Rattle.pdh_edge.specs.Files.{Sends, FailsToSend};
ghost use Rattle.pdh_folder.specs.Untold.{untold_output, out_state, CountsSend};

use pdh_edge::{Failed, Sink};
use std::io::Write;

/// The standard output, which tells nothing. Each `write` hands its bytes over at once.
#[derive(Drop)]
pub struct Out<R: Print + Drop> {
    rt: R,
    faults: u64,
}

impl<R: Print + Drop> Out<R> {
    /// No call has failed.
    pub fn new(rt: R) -> Out<R>
        ensures { out_state result ≡ untold_output 0 }
    {
        Out { rt, faults: 0 }
    }
}

impl<R: Print + Drop> Sink for Out<R> {
    ghost state = { out_state };

    fn faults(&self) -> u64 {
        self.faults
    }

    fn write(&mut self, bytes: &[u8]) -> Result<(), Failed>
        ensures ok { OnOk result (Sends bytes.now (out_state self.old) (out_state self.new)) }
        ensures err { OnErr result (FailsToSend bytes.now
            (out_state self.old) (out_state self.new)) }
        ensures counts { CountsSend (out_state self.old) (out_state self.new) result }
    {
        if self.rt.write_all(bytes).is_ok() {
            return Ok(());
        }
        self.faults = self.faults.saturating_add(1);
        Err(Failed)
    }
}
