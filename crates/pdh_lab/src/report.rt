//! What a drill reports.

ghost use Rattle.std.specs.Prelude.{◌≡◌, ◌<◌, ◌^◌};
ghost use Rattle.pdh_lab.specs.Steps.{with_leaf, HasRoom};

/// What became of the leaves of a chain in a drill.
#[derive(Clone, Copy, Debug, PartialEq, Eq)]
pub struct Drill {
    /// How many leaves the chain has.
    pub leaves: u32,
    /// How many bits of all leaves entered.
    pub entered: u64,
    /// How many bits of all leaves came out.
    pub out: u64,
    /// Of how many leaves what came out is a prefix of what they gave.
    pub equal: u32,
    /// By how many bits more of a leaf entered than came out, of the leaf of which these are the most.
    pub late: u64,
}

impl Drill {
    // The report on no leaf.
    pub(crate) fn none() -> Drill
        ensures { result ≡ record { leaves = 0; entered = 0; out = 0; equal = 0; late = 0 } }
    {
        Drill {
            leaves: 0,
            entered: 0,
            out: 0,
            equal: 0,
            late: 0,
        }
    }

    // The report with one leaf more, of which so many bits entered and so many came out.
    pub(crate) fn with_leaf(self, entered: u64, out: u64, equal: bool) -> Drill
        requires room { HasRoom self }
        requires entered { entered < 2 ^ 32 }
        requires out { out < 2 ^ 32 }
        ensures { result ≡ with_leaf self entered out equal }
    {
        Drill {
            leaves: self.leaves + 1,
            entered: self.entered + entered,
            out: self.out + out,
            equal: self.equal + u32::from(equal),
            late: self.late.max(entered.saturating_sub(out)),
        }
    }
}
