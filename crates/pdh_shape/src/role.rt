//! What a slot carries, which alignment slot it is, and what a service bit tells.

/// What a slot of a frame carries. Tributaries are counted from 0.
#[derive(Clone, Copy, Debug, PartialEq, Eq)]
pub enum Role {
    /// A bit of the frame alignment signal.
    Align(bool),
    /// A service bit, by its number in the shape.
    Service(u8),
    /// A copy of a tributary's justification control: the tributary and the copy, from 0.
    Control(u8, u8),
    /// The justifiable slot of a tributary.
    Just(u8),
    /// A bit of a tributary.
    Info(u8),
}

impl Role {
    ghost use Rattle.std.specs.Prelude.{◌≡◌};
    ghost use Rattle.pdh_shape.specs.Frame.{breaks as breaks_signal};
    ghost use Rattle.pdh_shape.specs.Tributary.{reads_from, controls as controls_of};

    /// Whether a slot of this role breaks the alignment signal with this bit.
    pub fn breaks(self, bit: bool) -> bool
        ensures { result ≡ breaks_signal self bit }
    {
        match self {
            Role::Align(signal) => bit != signal,
            _ => false,
        }
    }

    /// Whether a slot of this role holds a copy of a tributary's justification control.
    pub fn controls(self, trib: u8) -> bool
        ensures { result ≡ controls_of trib self }
    {
        match self {
            Role::Control(of, _) => of == trib,
            _ => false,
        }
    }

    /// Whether a slot of this role carries a bit of a tributary, in a frame that carries an
    /// additional bit of it or doesn't.
    pub fn reads(self, trib: u8, more: bool) -> bool
        ensures { result ≡ reads_from trib more self }
    {
        match self {
            Role::Info(of) => of == trib,
            Role::Just(of) => of == trib && more,
            _ => false,
        }
    }
}

/// Which alignment slot a slot is.
#[derive(Clone, Copy, Debug, PartialEq, Eq)]
pub enum Mark {
    /// A framing slot, by its number in slot order, below 64.
    Framing(u8),
    /// A multiframe slot.
    Multi,
    /// No alignment slot.
    Other,
}

/// The alignment slots of one frame that hold the wrong bit.
#[derive(Clone, Copy, Debug, PartialEq, Eq)]
pub struct Marks {
    /// Bit i is 1 where framing slot i is wrong.
    pub framing: u64,
    /// Whether some multiframe slot is wrong.
    pub multi: bool,
}

/// What the service bits of one frame say.
#[derive(Clone, Copy, Debug, PartialEq, Eq)]
pub struct Service {
    /// The remote alarm.
    pub alarm: bool,
    /// The bit of the far end alarm and control channel.
    pub feac: bool,
    /// The far end block error bit: true is no error.
    pub febe: bool,
    /// The data link bits.
    pub link: [bool; 3],
}

impl Service {
    ghost use Rattle.std.specs.Prelude.{◌≡◌};
    ghost use Rattle.pdh_shape.specs.Frame.{idle as idle_service};

    /// No alarm and no error; all other bits are 1.
    pub fn idle() -> Service
        ensures { result ≡ idle_service }
    {
        Service {
            alarm: false,
            feac: true,
            febe: true,
            link: [true; 3],
        }
    }
}

/// What a service bit tells the receiver.
#[derive(Clone, Copy, Debug, PartialEq, Eq)]
pub enum Duty {
    /// The remote alarm.
    Alarm,
    /// The parity of the previous frame.
    Parity,
    /// The far end alarm and control channel.
    Feac,
    /// The parity that the path's source sent.
    PathParity,
    /// A block error at the far end.
    Febe,
    /// None of these.
    Other,
}
