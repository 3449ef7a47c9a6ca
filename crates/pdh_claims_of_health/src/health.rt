//! Of the health of a line's nodes.

ghost use Rattle.std.specs.Prelude.{◌≡◌, ◌+◌, ◌*◌, ◌<◌, ◌≤◌, true, [], ◌∷◌, get_or, IfOk, IfSome};
ghost use Rattle.pdh_cells.specs.Contents.{blank};
ghost use Rattle.pdh_health.specs.Kept.{kept_codes};
ghost use Rattle.pdh_health.specs.Lines.{own_events, IsFoundOfLine};
ghost use Rattle.pdh_health.specs.Nodes.{IsFoundOf};

use pdh_cells::Code;
use pdh_health::{FirstCodes, Framing, Health, LineHealth, NodeHealth, NodeNumbers, NodePlan};
use pdh_placed::{Placed, PlacedWatch};
use pdh_shape::{Path, TOP};
use pdh_watch::{Event, Kind};
use std::alloc::{AllocError, Global};

// A top whose frames have 848 bits,
const PLAN: NodePlan = NodePlan {
    path: TOP,
    framing: Framing::Frames(848),
    block: 10,
};

// of which one was judged, a wrong one.
const NUMBERS: NodeNumbers = NodeNumbers {
    path: TOP,
    bits: 848,
    frames: 1,
    judged: 1,
    right: 0,
};

// Events of it.
const ALIGNED_LATE: Event = Event {
    kind: Kind::ALIGNED,
    path: TOP,
    bit: 4000,
    value: 0,
};

const LOST: Event = Event {
    kind: Kind::LOST,
    path: TOP,
    bit: 0,
    value: 0,
};

const ALARM: Event = Event {
    kind: Kind::ALARM_ON,
    path: TOP,
    bit: 0,
    value: 0,
};

const PARITY: Event = Event {
    kind: Kind::PARITY,
    path: TOP,
    bit: 0,
    value: 0,
};

// One of another node of the same level.
const LOST_BESIDE: Event = Event {
    kind: Kind::LOST,
    path: Path {
        depth: 0,
        first: 1,
        second: 0,
    },
    bit: 0,
    value: 0,
};

// What is found of the line of this top, which has so many bits, by two events.
fn line_after(alloc: Global, one: Placed, two: Placed, bits: u64) -> Result<LineHealth, AllocError>
    requires order { one.place ≤ two.place }
    requires within { two.place < bits }
    ensures { IfOk result (λ found. IsFoundOfLine 1000 bits (PLAN ∷ []) (NUMBERS ∷ []) (one ∷ two ∷ []) found) }
{
    let mut health = Health::open(alloc, 1000, &[PLAN])?;
    health.note(&one);
    health.note(&two);
    health.finish(alloc, bits, &[NUMBERS])
}

// What is found of the top.
fn found_after(alloc: Global, one: Placed, two: Placed, bits: u64) -> Result<NodeHealth, AllocError>
    requires order { one.place ≤ two.place }
    requires within { two.place < bits }
    ensures { IfOk result (λ node. IsFoundOf 1000 bits PLAN NUMBERS (own_events PLAN (one ∷ two ∷ [])) node) }
{
    let found = line_after(alloc, one, two, bits)?;
    Ok(found.nodes[0])
}

/// A remote alarm that stands at the end of the line is drawn.
pub fn alarm_at_the_end_not_shown(alloc: Global) -> Result<NodeHealth, AllocError>
    ensures { IfOk result (λ node. (get_or node.course.cells 0 blank).alarm ≡ true) }
{
    let alarm = Placed {
        event: ALARM,
        place: 0,
    };
    found_after(alloc, alarm, alarm, 1)
}

/// A first alignment is late from the last bit of the fourth frame on.
pub fn aligned_one_bit_too_late_is_early(len: u32) -> u64
    requires { 0 < len }
    ensures { result + 1 ≡ 4 * len }
{
    Framing::Frames(len).latest_start()
}

/// The events of another node of the same level are none of a node's own.
pub fn events_of_the_level_taken(alloc: Global) -> Result<NodeHealth, AllocError>
    ensures { IfOk result (λ node. node.counts.lost ≡ 1) }
{
    let own = Placed {
        event: LOST,
        place: 0,
    };
    let other = Placed {
        event: LOST_BESIDE,
        place: 0,
    };
    found_after(alloc, own, other, 1)
}

/// Of four codes the first three are kept.
pub fn last_codes_kept(one: Code, two: Code, three: Code, four: Code) -> FirstCodes
    ensures { kept_codes result ≡ one ∷ two ∷ three ∷ [] }
{
    FirstCodes::none()
        .plus(one)
        .plus(two)
        .plus(three)
        .plus(four)
}

/// The first trouble is told as the first.
pub fn last_trouble_told_as_the_first(alloc: Global) -> Result<Option<Placed>, AllocError>
    ensures { IfOk result (λ first. IfSome first (λ placed. placed.place ≡ 0)) }
{
    let lost = Placed {
        event: LOST,
        place: 0,
    };
    let later = Placed {
        event: LOST,
        place: 1,
    };
    let found = line_after(alloc, lost, later, 2)?;
    Ok(found.first)
}

/// A node whose first alignment comes late was out of alignment until then.
pub fn late_node_not_out_at_first(alloc: Global) -> Result<NodeHealth, AllocError>
    ensures { IfOk result (λ node. node.course.out.bits ≡ 4000) }
{
    let aligned = Placed {
        event: ALIGNED_LATE,
        place: 4000,
    };
    found_after(alloc, aligned, aligned, 5000)
}

/// A node whose first alignment comes late isn't shown as not yet aligned.
pub fn late_node_shown_as_not_yet_aligned(alloc: Global) -> Result<NodeHealth, AllocError>
    ensures { IfOk result (λ node. node.early_bits ≡ 0) }
{
    let aligned = Placed {
        event: ALIGNED_LATE,
        place: 4000,
    };
    found_after(alloc, aligned, aligned, 5000)
}

/// A loss begins a time out of alignment.
pub fn loss_ends_the_time_out(alloc: Global) -> Result<NodeHealth, AllocError>
    ensures { IfOk result (λ node. node.course.out.bits ≡ 7) }
{
    let lost = Placed {
        event: LOST,
        place: 0,
    };
    let parity = Placed {
        event: PARITY,
        place: 0,
    };
    found_after(alloc, lost, parity, 7)
}

/// A frame that completed a loss isn't told as one with wrong bits too.
pub fn losses_counted_as_wrong_bits(alloc: Global) -> Result<NodeHealth, AllocError>
    ensures { IfOk result (λ node. node.bad ≡ 0) }
{
    let lost = Placed {
        event: LOST,
        place: 0,
    };
    let parity = Placed {
        event: PARITY,
        place: 0,
    };
    found_after(alloc, lost, parity, 1)
}

/// Two errors at a bit are one errored block.
pub fn two_errors_at_a_bit_are_two(alloc: Global) -> Result<NodeHealth, AllocError>
    ensures { IfOk result (λ node. node.course.errored_blocks ≡ 1) }
{
    let parity = Placed {
        event: PARITY,
        place: 0,
    };
    found_after(alloc, parity, parity, 1)
}
