//! The orders in which the bits of a recording's bytes may be read.
//! It knows bytes and bits, and no line and no file.
#![tactic(auto)]

mod bit_order;
mod reading;

pub use bit_order::{BitOrder, all_orders};
pub use reading::read;
