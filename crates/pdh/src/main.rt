//! The program `pdh`: multiplexes recorded lines of the plesiochronous digital hierarchy, takes them
//! apart, and checks and makes their schedules.
//! It knows nothing but `pdh_main`.
#![tactic(auto)]

use pdh_main::pdh_main;
use std::process::ExitCode;

fn main(rt: HostRuntime) -> ExitCode {
    pdh_main(rt)
}
