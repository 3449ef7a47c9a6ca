//! The nodes below the top that stand, by what each node counted.

ghost use Rattle.std.specs.Prelude.{◌≡◌};
ghost use Rattle.pdh_standing.specs.Counting.{with_standing, walked, lower_counted};

use pdh_judging::Judged;
use pdh_rx::NodeCounts;

/// The nodes of a level that stand. At `u64::MAX` a count stands.
#[derive(Clone, Copy, Debug, PartialEq, Eq)]
pub struct Tally {
    /// How many there are.
    pub stand: u64,
    /// Their frames that were judged.
    pub judged: u64,
    /// The right ones of these.
    pub right: u64,
}

impl Tally {
    /// No node.
    pub(crate) const NONE: Tally = Tally {
        stand: 0,
        judged: 0,
        right: 0,
    };

    // With a node more, of whose line this was judged, if it stands.
    fn with(self, stands: bool, judged: Judged) -> Tally
        ensures { result ≡ with_standing stands self judged }
    {
        if !stands {
            return self;
        }
        Tally {
            stand: self.stand.saturating_add(1),
            judged: self.judged.saturating_add(judged.frames),
            right: self.right.saturating_add(judged.right),
        }
    }
}

/// The two levels below a top.
#[derive(Clone, Copy, Debug, PartialEq, Eq)]
pub struct Lower {
    /// The nodes one step below it.
    pub first: Tally,
    /// Those two steps below it.
    pub second: Tally,
}

impl Lower {
    /// No node.
    pub(crate) const NONE: Lower = Lower {
        first: Tally::NONE,
        second: Tally::NONE,
    };
}

// A walk over the nodes of a chain, from the top down.
#[derive(Clone, Copy)]
struct Walk {
    // the last node one step below the top stands
    parent: bool,
    lower: Lower,
}

impl Walk {
    // With the next node: one step below the top, or two, where it counts if the node above it stands.
    fn past(self, node: &NodeCounts) -> Walk
        ensures { result ≡ walked self node.now }
    {
        let depth = node.path.depth;
        if depth == 0 {
            return self;
        }
        let stands = node.judged.below();
        if depth == 1 {
            return Walk {
                parent: stands,
                lower: Lower {
                    first: self.lower.first.with(stands, node.judged),
                    second: self.lower.second,
                },
            };
        }
        Walk {
            parent: self.parent,
            lower: Lower {
                first: self.lower.first,
                second: self.lower.second.with(self.parent && stands, node.judged),
            },
        }
    }
}

/// The nodes below a top that stand, by what each node counted: the top first, and behind each node those below it.
pub(crate) fn count_lower(nodes: &[NodeCounts]) -> Lower
    ensures { result ≡ lower_counted nodes.now }
{
    let mut walk = Walk {
        parent: false,
        lower: Lower::NONE,
    };
    for node in nodes {
        walk = walk.past(node);
    }
    walk.lower
}
