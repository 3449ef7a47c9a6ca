//! Frame shapes: what each slot of a frame carries, and when frame alignment is lost.
//! It stands on no other crate, and knows no frame of a standard: what is here is true of any shape. Of chains and files it
//! knows numbers and places alone.
#![tactic(auto)]

mod own_numbers;
mod place;
mod role;
mod shape;

pub use own_numbers::{
    ALLOWANCE, LEAD, MOST_BYTES, MOST_DRILLED, MOST_FRAMES, STORE_SIZE, THRESHOLD,
};
pub use place::{Level, Path, Place, TOP};
pub use role::{Duty, Mark, Marks, Role, Service};
pub use shape::{Shape, majority};
