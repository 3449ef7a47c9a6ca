//! What callers may rely on of stores, slips and multiplexers, each by its public contract alone: a wrong body that its
//! contract would pass breaks the claim of that name here.
#![tactic(auto)]

mod locked;
mod slips;
mod store;
mod tx;
