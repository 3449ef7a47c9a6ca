//! Why a recording wasn't followed to its end.

use pdh_event_rows::RowError;
use pdh_recording::Fault;
use std::alloc::AllocError;

/// Why a recording wasn't followed to its end.
#[derive(Clone, Copy, Debug, PartialEq, Eq)]
pub enum FollowFault {
    /// It couldn't be read.
    Recording(Fault),
    /// A row couldn't be written.
    Unwritten,
    /// Memory was wanting.
    OutOfMemory,
}

impl From<AllocError> for FollowFault {
    fn from(_error: AllocError) -> FollowFault {
        FollowFault::OutOfMemory
    }
}

impl From<Fault> for FollowFault {
    fn from(fault: Fault) -> FollowFault {
        match fault {
            Fault::OutOfMemory => FollowFault::OutOfMemory,
            _ => FollowFault::Recording(fault),
        }
    }
}

impl From<RowError> for FollowFault {
    fn from(error: RowError) -> FollowFault {
        match error {
            RowError::OutOfMemory => FollowFault::OutOfMemory,
            RowError::Unwritten => FollowFault::Unwritten,
        }
    }
}
