//! The chains of multiplexers.
//! From here on a chain has a name. The crate knows the lists of a port, and no file.
#![tactic(auto)]

mod ahead;
mod chain;
mod laws;
mod making;
mod multiplexer;
mod opening;
mod receiving;
mod saying;
mod sending;
mod stages;
mod stop;
mod trees;
mod types;

pub use chain::{Chain, all_chains, delay, frame_bytes, leaves};
pub use laws::{
    demux_puts_no_more_than_the_shares, leaf_receives_no_more_than_its_share,
    line_is_clear_within_tolerance, mux_puts_no_more_than_its_frames, no_event_within_tolerance,
    receiver_counts_each_node,
};
pub use making::mux_with;
pub use multiplexer::{ChainTop, Multiplexer};
pub use opening::{open_receiver, open_sender};
pub use receiving::{demux_with, receive};
pub use stages::{
    DS2_LEVEL, DS2_LOCKED_LEVEL, DS3_LEVEL, DS3_LOCKED_LEVEL, E2_LEVEL, E3_LEVEL, E4_LEVEL,
};
pub use stop::{DemuxStop, MuxStop};
pub use trees::{ChainRx, ChainTx};
pub use types::{
    C13Receiver, C13Sender, E12Receiver, E12Sender, E13Receiver, E13Sender, E14Receiver, E14Sender,
    E23Receiver, E23Sender, E24Receiver, E24Sender, E34Receiver, E34Sender, M12Receiver, M12Sender,
    M13Receiver, M13Sender, M23Receiver, M23Sender,
};
