//! The program `pdh_report_cases`: runs `pdhreport` over recordings, and tells which of its outputs differ from the files that
//! stand beside them. Its file `cases` says what is run. Where it runs, the texts of the runs are its own text.
#![tactic(auto)]

mod cases;
mod fault;

use cases::run_cases;
use std::process::ExitCode;

fn main(rt: HostRuntime) -> ExitCode {
    match run_cases(&rt) {
        Ok(()) => ExitCode::SUCCESS,
        Err(fault) => {
            let _ = println!(rt; "{fault}");
            ExitCode::FAILURE
        }
    }
}
