//! The program `pdh_cases_that_differ`: runs cases that expect what is wrong, and tells what differs.
//! It knows nothing but `judge_all`.
#![tactic(auto)]

use pdh_case_runner::judge_all;
use std::process::ExitCode;

fn main(rt: HostRuntime) -> ExitCode {
    ExitCode::from(judge_all(&rt))
}
