//! The rows of one node of a chain: how many bits of each of its tributaries arrive in each of its frames.
//! It knows no other node and no text.
//!
//! A row says how the bits of each tributary arrive in so many frames: the same count in each of them, or as evenly as the
//! rates of the tributary and of the line bring them, as whole bits. A table keeps the rows of a node in order, each with the
//! frames and the bits before it, so that a frame's count and the bits up to a frame are found by halves.
//!
//! A tributary is within the tolerance where over no run of frames more bits arrive than these carry at most, or fewer
//! than they carry at least, each up to the allowance. A table answers with the first run that isn't.
//!
//! A table also answers whether a tributary's store, by its fill at the start of a frame, surely stays away from both its ends in some
//! frames from there on.
#![tactic(auto)]

mod flow;
mod inside;
mod outside;
mod table;
mod tolerance;

pub use flow::{Flow, Says};
pub use inside::stays_inside;
pub use outside::Outside;
pub use table::{Table, TribRow};
pub use tolerance::within_tolerance;
