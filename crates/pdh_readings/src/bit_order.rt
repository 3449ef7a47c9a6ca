//! Orders of bits.

ghost use Rattle.std.specs.Prelude.{◌≡◌};
ghost use Rattle.pdh_readings.specs.Orders.{orders};

/// An order in which bits are read of bytes.
#[derive(Clone, Copy, Debug, PartialEq, Eq)]
pub struct BitOrder {
    /// The first bit of a byte is its least significant one.
    pub lsb_first: bool,
    /// Every bit is inverted.
    pub inverted: bool,
}

/// All orders, as they are tried: the most significant bit first, the same inverted, the least significant bit first, the same
/// inverted.
pub fn all_orders() -> [BitOrder; 4]
    ensures { result ≡ orders }
{
    [
        BitOrder {
            lsb_first: false,
            inverted: false,
        },
        BitOrder {
            lsb_first: false,
            inverted: true,
        },
        BitOrder {
            lsb_first: true,
            inverted: false,
        },
        BitOrder {
            lsb_first: true,
            inverted: true,
        },
    ]
}
