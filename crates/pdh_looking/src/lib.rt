//! What a recording is: the first chain or framed stream, and the first order of bits, whose frames stand in a part of it.
//! It knows bytes in memory and lines, and no file and no event.
#![tactic(auto)]

mod answer;
mod level;
mod levels;
mod looking;
mod nearest;
mod part;
mod reading;
mod top;
mod tops;

pub use answer::{Found, Looked};
pub use level::Level;
pub use levels::LevelFound;
pub use looking::{look, top_stands};
pub use nearest::Nearest;
