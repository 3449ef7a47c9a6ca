//! What a command is, as one record, and the one function that performs the commands over a port: it has the command prepare its
//! work, opens the port, has the work done, appends what waits, and closes the port.
#![tactic(auto)]

mod audience;
pub mod files;
mod line;
mod performing;
mod port;
mod running;

pub use audience::{Audience, Nobody};
pub use line::line_of;
pub use performing::{PortCommand, perform};
pub use port::{Ended, Input, PortFiles};
pub use running::{Outcome, Worked};
