//! The program `pdh` once more, for a run that is stored: it ends with a status other than 0.
//! It knows nothing but `pdh_main`.
#![tactic(auto)]

use pdh_main::pdh_main;
use std::process::ExitCode;

fn main(rt: HostRuntime) -> ExitCode {
    pdh_main(rt)
}
