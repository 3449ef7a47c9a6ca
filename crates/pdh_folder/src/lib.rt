//! The real devices: the files of the current folder as a shelf, and the standard output as a sink.
//! They tell no contents. All files of a run come and go through this crate.
//! It knows names and bytes, and no bit of a line.
#![tactic(auto)]

mod beside;
mod folder;
mod open_files;
mod out;

pub use folder::Folder;
pub use out::Out;
