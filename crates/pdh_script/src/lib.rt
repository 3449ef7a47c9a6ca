//! Scripts that disturb a recorded line.
//! It knows a line as bits alone: no frame, no chain and no file. `Script::apply` disturbs a line of a port in one go, and a
//! `Bender` a line as its bits come.
//!
//! A script's text is lines, each ended by a line feed, which the last may lack. An empty line, and one whose first byte
//! is `#`, are passed over. Every other line is a row, three words with one space between:
//!
//! - `flip AT COUNT` inverts so many bits from a place on;
//! - `ones AT COUNT` sets them to 1;
//! - `zeros AT COUNT` sets them to 0;
//! - `drop AT COUNT` leaves them out;
//! - `add AT HEX` puts the bits of bytes before the bit of that place.
//!
//! AT and COUNT are numbers: `0`, or a digit 1 to 9 and at most eight digits. COUNT isn't 0. HEX is 2 to 128 hexadecimal
//! digits of either case, two for each byte. Places are those of the line as it was read, and the first bit has place 0.
//!
//! A row begins no earlier than the row before it ends, which is at AT + COUNT, or at AT for `add`; otherwise it is a bad
//! row, as is a line of another form. A row whose end is above the bits of the line is past the end. The first line with
//! a fault is the fault of the text, and a line that is both is a bad row. Lines are numbered from 1, and those that are
//! passed over count. A text has at most 1,048,576 bytes, so its rows add at most 524,288.
#![tactic(auto)]

mod bender;
mod fault;
mod laws;
mod passing;
mod reading;
mod row;
mod rows_left;
mod script;
mod step;
mod stop;

pub use bender::Bender;
pub use fault::ScriptFault;
pub use laws::{bends_as_applied, bits_bring_no_more_than_rows_add};
pub use script::{MOST_SCRIPT_BYTES, Script};
pub use stop::ApplyStop;
