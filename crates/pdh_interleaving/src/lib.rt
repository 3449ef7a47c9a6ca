//! Bits of four or of seven tributaries in turn, as the payload of a frame has them: put together and
//! dealt out, many at a time.
//! It knows no slot of a frame: callers tell which bits, and how many of each.
#![tactic(auto)]

mod kernels;
mod table;
mod turns;

pub use turns::{deal_four, deal_seven, interleave};
