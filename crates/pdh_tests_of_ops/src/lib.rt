//! Tests of whole runs, over devices in memory.
//! It knows commands by their words alone, and no crate stands on it.
#![tactic(auto)]

#[cfg(test)]
mod run;
