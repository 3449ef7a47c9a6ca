//! The drain of receivers whose bits nobody wants.
//! It knows that bits are put, and no leaf and no line.
#![tactic(auto)]

mod nowhere;

pub use nowhere::Nowhere;
