//! DS1 lines of ANSI T1.403 and T1.107 (ITU-T G.704, 2.1) in superframes and in extended superframes: payloads to lines and
//! back, whole or a piece at a time, and the alignment machine.
//! It knows no chain and no file: the bits are handed to it, and the payload goes to a drain.
//!
//! A frame has an F bit and 24 octets of payload. A superframe has 12 frames, and an extended one 24.
#![tactic(auto)]

mod align;
mod block_counts;
mod codec;
mod crc;
mod deframer;
mod f_bits;
mod fault;
mod form;
mod framer;
mod packer;
mod plan;
mod plans;
mod superframe;
mod words;

pub use align::Ds1Align;
pub use block_counts::carried;
pub use codec::{pack, packed_is_given_back, unpack};
pub use crc::crc6_after;
pub use deframer::Deframer;
pub use fault::{Ds1PackFault, Ds1UnpackFault};
pub use form::Frame1;
pub use framer::Framer;
pub use packer::Ds1Packer;
pub use plan::{InSuperframe, SuperframePlan};
pub use plans::{ESF_PLAN, EsfPlan, SF_PLAN, SfPlan};
pub use superframe::{Ds1Esf, Ds1Sf, Superframe};
pub use words::word_of;
