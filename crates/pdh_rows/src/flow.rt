//! Bits that arrive evenly over the frames of a row.

ghost use Rattle.std.specs.Prelude.{◌≡◌, ◌≤◌, ◌<◌, ◌*◌, ◌^◌, suc};
ghost use Rattle.pdh_rows.specs.Flows.{flowed, flow_count, flow_in};

/// So many bits in so many frames. After some frames as many whole bits have arrived as their time brings.
#[derive(Clone, Copy)]
pub struct Flow {
    /// The bits.
    pub bits: u128,
    /// The frames.
    pub frames: u128,
}

/// What the numbers of a row say, of which there is one for each tributary.
#[derive(Clone, Copy)]
pub enum Says {
    /// Each is a count: so many bits arrive in each frame of the row.
    Counts,
    /// Each is the rate of a tributary, as a multiple of a millionth of the nominal rate.
    Rates {
        /// The rate of the line, in the same way.
        line: u32,
    },
}

impl Flow {
    /// How many bits have arrived after so many frames.
    pub fn arrived(self, frames: u128) -> u128
        requires some { 0 < self.frames }
        requires few { frames * self.bits < 2 ^ 128 }
        ensures { result ≡ flowed self frames }
    {
        frames * self.bits / self.frames
    }

    /// How many bits arrive in a frame, counted from 0.
    pub fn count(self, frame: u64) -> u32
        requires some { 0 < self.frames }
        requires few { suc frame * self.bits < 2 ^ 128 }
        requires most { self.bits ≤ 4294967295 * self.frames }
        ensures { result ≡ flow_count self frame }
    {
        // a row of counts, which most long schedules have one of for each frame
        if self.frames == 1 {
            return self.bits as u32;
        }
        let frame = u128::from(frame);
        (self.arrived(frame + 1) - self.arrived(frame)) as u32
    }
}

impl Says {
    /// The flow of a tributary by its number, where `ratio` is the one at the nominal rates.
    pub fn flow(self, ratio: Flow, number: u32) -> Flow
        requires bits { (flow_in ratio self number).bits < 2 ^ 128 }
        requires frames { (flow_in ratio self number).frames < 2 ^ 128 }
        ensures { result ≡ flow_in ratio self number }
    {
        match self {
            Says::Counts => Flow {
                bits: u128::from(number),
                frames: 1,
            },
            Says::Rates { line } => Flow {
                bits: ratio.bits * u128::from(number),
                frames: ratio.frames * u128::from(line),
            },
        }
    }
}
