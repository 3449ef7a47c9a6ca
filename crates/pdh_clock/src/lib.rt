//! Schedules: how many bits of each tributary arrive in each frame of a recorded line.
//! It knows levels and the bytes of a text, and no bit of a line and no file.
//!
//! `pdh_row_text` reads the lines of a schedule's text. A line is judged in this order: the form of the row, with all its
//! numbers; the node; how many counts or offsets there are; the first count above the bits of a frame. No row of rates has
//! such a count. Lines are numbered from 1, and all lines count. A text has at most 33,554,432 bytes.
//!
//! A chain has one to three levels, each with multiplexers of one kind: its top is the first level's, and each tributary of
//! a node that isn't of the last level is a node of the next one. So `/` is the top, `/2` the node of its second
//! tributary, and `/2/3` that of the third tributary of `/2`. The rows of a node may stand between those of others.
//! A schedule keeps the nodes in order, a node before those below it, each with its rows in order of lines.
//!
//! A top may have no stores. Then its rows have no counts, and each of its frames carries as many bits of every tributary.
#![tactic(auto)]

mod beginning;
mod bias;
mod fault;
mod judge;
mod made;
mod ratio;
mod reading;
mod schedule;
mod tree;
mod writing;

pub use beginning::Short;
pub use bias::Bias;
pub use fault::ScheduleFault;
pub use pdh_rows::Outside;
pub use schedule::Schedule;
