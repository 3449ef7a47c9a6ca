//! The kinds of events, in sets.

use bitflags::{Flag, Flags, bitflag_items};

/// A set of kinds of events.
#[derive(Clone, Copy, Debug, PartialEq, Eq)]
pub struct Kind(u32);

bitflag_items! {
    impl Kind: u32 {
        /// A position of the line is confirmed.
        const ALIGNED = 1;
        /// A loss of alignment is complete.
        const LOST = 2;
        /// The run of ones reaches the length of AIS: a frame of the node, or 512 bits of a 2048 kbit/s
        /// stream.
        const AIS_ON = 4;
        /// The first 0 after that.
        const AIS_OFF = 8;
        /// A delivered frame has the remote alarm, and the one before it, if there is one, hadn't.
        const ALARM_ON = 16;
        /// A delivered frame has no remote alarm, and the one before it had.
        const ALARM_OFF = 32;
        /// The parity bits aren't the parity of the frame before.
        const PARITY = 64;
        /// The path parity bits aren't the parity of the frame before.
        const PATH_PARITY = 128;
        /// The far end tells a block error.
        const FEBE = 256;
        /// The far end alarm and control channel has a code.
        const FEAC = 512;
        /// A block's check is wrong.
        const CRC = 1024;
        /// The far end tells that a block's check was wrong.
        const EBIT = 2048;
    }
}

impl Flags for Kind {
    ghost use Rattle.std.specs.Prelude.{⊤};
    ghost use Rattle.pdh_watch.specs.Kinds.{kinds};

    type Bits = u32;

    ghost exact = { ⊤ };

    ghost table = { kinds };

    ghost set_of = { λ kind. kind.0 };

    fn flags<'a>() -> &'a [Flag<Kind>] {
        &[
            Flag {
                name: "aligned",
                value: Kind::ALIGNED,
            },
            Flag {
                name: "lost",
                value: Kind::LOST,
            },
            Flag {
                name: "ais_on",
                value: Kind::AIS_ON,
            },
            Flag {
                name: "ais_off",
                value: Kind::AIS_OFF,
            },
            Flag {
                name: "alarm_on",
                value: Kind::ALARM_ON,
            },
            Flag {
                name: "alarm_off",
                value: Kind::ALARM_OFF,
            },
            Flag {
                name: "parity",
                value: Kind::PARITY,
            },
            Flag {
                name: "path_parity",
                value: Kind::PATH_PARITY,
            },
            Flag {
                name: "febe",
                value: Kind::FEBE,
            },
            Flag {
                name: "feac",
                value: Kind::FEAC,
            },
            Flag {
                name: "crc",
                value: Kind::CRC,
            },
            Flag {
                name: "ebit",
                value: Kind::EBIT,
            },
        ]
    }

    fn bits(&self) -> u32 {
        self.0
    }

    fn from_bits_retain(bits: u32) -> Kind {
        Kind(bits)
    }
}
