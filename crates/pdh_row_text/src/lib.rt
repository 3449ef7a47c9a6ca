//! The text of schedules: its lines, and the rows that they say.
//! It knows the words of a line, and no level and no schedule.
//!
//! A schedule's text is lines, each ended by a line feed, which the last may lack. An empty line, and one whose first
//! byte is `#`, are passed over. Every other line is a row, but for a first line that is exactly `version 2`: it says the
//! text's version, and isn't one.
//!
//! A row of counts is a path, one space, a repeat, and then for each store of the node one space and a count. A path is
//! `/`, `/A` or `/A/B` with A and B from 1 to 9. The repeat and the counts are numbers: `0`, or a digit 1 to 9 and at most
//! eight digits. The repeat isn't 0. A row says that the next frames of that node, as many as the repeat, have these counts.
//!
//! In a text of version 2 a row may be one of rates: the word `rate`, a path, a repeat from 1 to 131,072, the clock offset of
//! the node's line, and then that of a tributary for each store, each behind one space. An offset is a number of parts per
//! million, at most 1000, with a minus sign before it where the clock is slow; `-0` is none. It says that the next frames of
//! that node run at these offsets from the nominal rates: the bits of a tributary that have arrived after some of the row's
//! frames are the whole ones of their time, and a frame's count is the difference of two such numbers.
#![tactic(auto)]

mod rates;
mod row;
mod words;

pub use row::{FoundRow, Numbers, Version, read_row};
pub use words::{first_line, first_word, is_passed_over, number};
