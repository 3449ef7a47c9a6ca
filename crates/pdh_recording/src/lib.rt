//! The bits of a recording: of a file or of the standard input, in blocks of bounded memory, in an order of bits, from a bit on and
//! no more than asked for; and the part of it that is looked at before.
//! It knows bytes and bits, and no line.
#![tactic(auto)]

mod ahead;
mod fault;
mod filling;
mod opening;
mod part;
mod recording;
mod replay;
mod source;

pub use fault::Fault;
pub use opening::{Opened, open};
pub use part::Part;
pub use recording::{BLOCK_BITS, Recording};
pub use source::Source;
