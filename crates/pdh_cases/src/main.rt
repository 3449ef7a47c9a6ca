//! The program `pdh_cases`: runs the worked cases, and tells which of them differ.
//! It knows nothing but `judge_all`.
#![tactic(auto)]

use pdh_case_runner::judge_all;
use std::process::ExitCode;

fn main(rt: HostRuntime) -> ExitCode {
    ExitCode::from(judge_all(&rt))
}
