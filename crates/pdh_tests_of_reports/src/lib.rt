//! Tests of reports: what no clause says of their texts and pictures.
//! It knows plain values, and no crate stands on it.
#![tactic(auto)]

#[cfg(test)]
mod heads;
#[cfg(test)]
mod numbers;
#[cfg(test)]
mod outcomes;
#[cfg(test)]
mod pictures;
#[cfg(test)]
mod reports;
#[cfg(test)]
mod tables;
