//! Tests of 2048 kbit/s streams and DS1 lines, by what the crates make public.
//! It knows no command, and no crate stands on it.
#![tactic(auto)]

#[cfg(test)]
mod ds1;
#[cfg(test)]
mod framed;
#[cfg(test)]
mod g706;
