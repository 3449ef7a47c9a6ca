//! Texts of at most 320 bytes, which take no memory.
//! It knows numbers, paths and bytes, and no command and no event.
#![tactic(auto)]

mod text;

pub use text::Text;
