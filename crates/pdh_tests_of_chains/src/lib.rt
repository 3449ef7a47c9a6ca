//! Tests of the crates of sent lines and chains, by what these crates make public.
//! It knows no command, and no crate stands on it.
#![tactic(auto)]

#[cfg(test)]
mod chain;
#[cfg(test)]
mod chain_sending;
#[cfg(test)]
mod inspect;
#[cfg(test)]
mod lab;
#[cfg(test)]
mod ports;
#[cfg(test)]
mod recovery;
#[cfg(test)]
mod script;
#[cfg(test)]
mod show;
#[cfg(test)]
mod slips;
#[cfg(test)]
mod tx;
