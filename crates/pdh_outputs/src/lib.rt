//! The outputs of a run: each is written beside its name, and all take their names when they are whole.
//! It knows names and bytes, and not what they tell.
#![tactic(auto)]

mod begun;
mod fault;
mod file_id;
mod outputs;

pub use fault::OutputFault;
pub use outputs::OutputFiles;
