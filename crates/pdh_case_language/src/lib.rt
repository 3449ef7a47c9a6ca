//! Worked cases of the program as data: the language in which they are written, and its reading.
//! It runs nothing and touches no file. Of the program it knows the kinds of events alone.
#![tactic(auto)]

mod case;
mod fault;
mod items;
mod names;
mod reader;
mod reading;
mod statement;

pub use case::{Case, Cut, Given, Item, Kind, Observer, Run, Said, Sweep, Want, Wanted};
pub use fault::{CaseFault, Fault};
pub use names::{at_place, names_of};
pub use reading::read;
