//! What callers may rely on of the receivers of 2048 kbit/s streams and of DS1 lines, each by its public contract alone: a wrong
//! body that its contract would pass breaks the claim of that name here.
#![tactic(auto)]

pub mod ds1;
pub mod g706;
