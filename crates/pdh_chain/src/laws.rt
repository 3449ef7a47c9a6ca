//! Laws of whole chains. Each function does nothing: what it ensures is the law.
ghost use Rattle.std.specs.Prelude.{◌≡◌, ◌≤◌, ◌<◌, ◌*◌, ◌/◌, ℕ, Bool, List, length, ⊤};
ghost use Rattle.pdh_shape.specs.declared.role.Service.{Service};
ghost use Rattle.pdh_shape.specs.Frame.{FrameShape};
ghost use Rattle.pdh_nesting.specs.Chains.{width, top_len, AreFrames};
ghost use Rattle.pdh_line.specs.Sending.{Mode};
ghost use Rattle.pdh_line.specs.Sending.Mode.{Plain};
ghost use Rattle.pdh_line.specs.Nodes.{Counts};
ghost use Rattle.pdh_nesting.specs.Receiving.{far};
ghost use Rattle.pdh_edge.specs.Ports.{Inputs};
ghost use Rattle.pdh_clock.specs.Contents.{Contents, counts as counts_in};
ghost use Rattle.pdh_shape.specs.declared.place.Path.{Path};
ghost use Rattle.pdh_chain.specs.Trees.{receiver_of};
ghost use Rattle.pdh_chain.specs.Counts.{node_counts};
ghost use Rattle.pdh_chain.specs.Muxes.{obstacle_at, IsNoEvent, IsTolerated, PutsPrefix};
ghost use Rattle.pdh_chain.specs.Demuxes.{DemuxesPart};
ghost use Rattle.pdh_chain.specs.Calls.{IsScheduledWithin, HaveEnough, GoesClear, PutsAtMost};

/// Within the tolerance no bit of a chain's line meets an event of a store, whatever the leaves' lists
/// hold and however many frames are scheduled.
pub fn no_event_within_tolerance()
    ensures { (shapes : List FrameShape) (counts : Counts) (bits : ℕ) → IsTolerated shapes counts bits
        → (scheduled : List ℕ → ℕ) (size : ℕ → ℕ) (x : ℕ) → x < bits
        → IsNoEvent (obstacle_at Plain shapes counts scheduled size x) }
{}

/// Within the tolerance the sender of a chain may make any bits of its line at once: nothing stands in their way, and they bring no
/// slip. The nodes have the frames that they begin, and each leaf's list has the bits that it gives.
pub fn line_is_clear_within_tolerance()
    ensures { (shapes : List FrameShape) (schedule : Contents) (bits : ℕ) → IsScheduledWithin shapes schedule bits
        → (from to : ℕ) → to ≤ bits → (inputs : Inputs) → HaveEnough shapes (counts_in schedule.rows) from to inputs
        → GoesClear shapes schedule from to inputs }
{}

/// A leaf receives no more bits of a line than its share of them.
pub fn leaf_receives_no_more_than_its_share()
    ensures { (shapes : List FrameShape) (line : List Bool) (leaf : ℕ) → AreFrames shapes
        → leaf < width shapes → length (far shapes line leaf) * width shapes ≤ length line }
{}

/// What a chain's receiver counts of a line is what each of its nodes counts, from the top down, one tributary after another.
pub fn receiver_counts_each_node()
    ensures { (shapes : List FrameShape) (path : Path) (leaf : ℕ) (line : List Bool)
        → (receiver_of shapes path leaf).counted line ≡ node_counts shapes path line }
{}

/// Where `mux` or `mux_slips` couldn't put a bit, no list took more bits than its frames have.
pub fn mux_puts_no_more_than_its_frames()
    ensures { (mode : Mode) (shapes : List FrameShape) (counts : Counts) (says : ℕ → Service) (scheduled : List ℕ → ℕ) (frames : ℕ)
        → PutsAtMost (PutsPrefix mode shapes counts says scheduled frames) (frames * top_len shapes) }
{}

/// Where `demux` couldn't put a bit, no list took more bits than a leaf's share of the line.
pub fn demux_puts_no_more_than_the_shares()
    ensures { (shapes : List FrameShape) (bits : ℕ) → AreFrames shapes
        → PutsAtMost (DemuxesPart shapes (λ events. ⊤) bits) (bits / width shapes) }
{}
