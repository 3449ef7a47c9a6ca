//! What is counted in a received line.

ghost use Rattle.std.specs.Prelude.{◌≡◌, ◌+◌, ◌^◌, ◌-◌, ◌<◌, ◌&&◌, ◌==◌, nat_le, if◌then◌else◌};
ghost use Rattle.pdh_bits.specs.Bits.{bit_value};
ghost use Rattle.pdh_g706.specs.Tracking.{counted};

/// What was found in all. Each count stands at `u64::MAX` once there.
#[derive(Clone, Copy, Debug)]
pub(crate) struct Counts {
    /// Delivered multiframes.
    pub(crate) multiframes: u64,
    /// Judged blocks.
    pub(crate) blocks: u64,
    /// Errored ones among them.
    pub(crate) errored: u64,
}

impl Counts {
    /// Nothing was found.
    pub(crate) const NONE: Counts = Counts {
        multiframes: 0,
        blocks: 0,
        errored: 0,
    };

    /// The counts with these added.
    pub(crate) fn plus(self, multiframes: u32, blocks: u32, errored: u32) -> Counts
        ensures multiframes { result.multiframes ≡ counted (self.multiframes + multiframes) }
        ensures blocks { result.blocks ≡ counted (self.blocks + blocks) }
        ensures errored { result.errored ≡ counted (self.errored + errored) }
    {
        Counts {
            multiframes: self.multiframes.saturating_add(u64::from(multiframes)),
            blocks: self.blocks.saturating_add(u64::from(blocks)),
            errored: self.errored.saturating_add(u64::from(errored)),
        }
    }
}

/// The blocks of the current group of 1000 (G.706, 4.3.2).
#[derive(Clone, Copy, Debug)]
pub(crate) struct Group {
    /// Judged blocks.
    pub(crate) judged: u32,
    /// Errored ones among them.
    pub(crate) errored: u32,
}

impl Group {
    /// A group of which no block is judged.
    pub(crate) const NONE: Group = Group {
        judged: 0,
        errored: 0,
    };

    /// The group with one more judged block.
    pub(crate) fn with(self, errored: bool) -> Group
        requires judged { self.judged < 1000 }
        requires errored { self.errored < 1000 }
        ensures judged { result.judged ≡ self.judged + 1 }
        ensures errored { result.errored ≡ self.errored + bit_value errored }
    {
        Group {
            judged: self.judged + 1,
            errored: self.errored + u32::from(errored),
        }
    }

    /// Whether the group is whole and tells of a false alignment.
    pub(crate) fn is_false(self) -> bool
        ensures { result ≡ ((self.judged == 1000) && nat_le 915 self.errored) }
    {
        if self.judged != 1000 {
            return false;
        }
        self.errored >= 915
    }

    /// The group that the next block belongs to.
    pub(crate) fn next(self) -> Group
        ensures judged { result.judged ≡ (if self.judged == 1000 then 0 else self.judged) }
        ensures errored { result.errored ≡ (if self.judged == 1000 then 0 else self.errored) }
    {
        if self.judged == 1000 {
            return Group::NONE;
        }
        self
    }
}
