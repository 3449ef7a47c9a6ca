//! The laws of chains whose stores slip, whatever the frames of their levels. Each function does
//! nothing: what it ensures is the law.
ghost use Rattle.std.specs.Prelude.{◌≡◌, ◌<◌, ◌≤◌, ℕ, ◌*◌, Bool, List, [], length, take};
ghost use Rattle.pdh_shape.specs.declared.role.Service.{Service as Say};
ghost use Rattle.pdh_shape.specs.Frame.{FrameShape};
ghost use Rattle.pdh_line.specs.Edits.{edited};
ghost use Rattle.pdh_line.specs.Sending.{front};
ghost use Rattle.pdh_line.specs.Sending.Mode.{Slipping};
ghost use Rattle.pdh_line.specs.Nodes.{Counts};
ghost use Rattle.pdh_nesting.specs.Chains.{width, top_len, AreFrames, ReadEvenly};
ghost use Rattle.pdh_nesting.specs.Events.{events_below};
ghost use Rattle.pdh_nesting.specs.Receiving.{far};
ghost use Rattle.pdh_nesting.specs.Sending.{Content, content_of, line_in, line_with, given_below, AllWithin, AllScheduled, AllTolerated, ArriveSingly};
ghost use Rattle.pdh_nesting.specs.Slips.{slips_of, slipped, leaf_edits, slipped_back, NoneAbove};

/// Where each tributary that has a store is within the tolerance, over the frames that its node begins
/// or over all that its node has, no store of the chain slips, and its line is that of plain mode.
pub fn no_slip_within_tolerance()
    ensures begun { (chain : List FrameShape) (counts : Counts) (frames : ℕ) →
        AreFrames chain → ReadEvenly chain → AllWithin chain counts [] (frames * top_len chain) →
        slips_of chain counts frames ≡ [] }
    ensures scheduled { (chain : List FrameShape) (counts : Counts) (schedule : List ℕ → ℕ) (frames : ℕ) →
        AreFrames chain → ReadEvenly chain → AllScheduled chain counts schedule [] (frames * top_len chain) →
        AllTolerated chain counts schedule [] → slips_of chain counts frames ≡ [] }
    ensures same { (chain : List FrameShape) (counts : Counts) (content : Content) (bits bit : ℕ) →
        AreFrames chain → ReadEvenly chain → AllWithin chain counts [] bits → bit < bits →
        line_in Slipping chain counts content bit ≡ line_with chain counts content bit }
{}

/// Where no node on the way to a leaf slips, of the first bits of a line the leaf gets its own first
/// bits with the edits of its own store's slips: of so many bits at least. Its list has these bits,
/// where it holds what the leaf has given by then.
pub fn leaves_come_back_with_slips()
    ensures front { (chain : List FrameShape) (counts : Counts) (content : Content) (bits most leaf : ℕ) →
        AreFrames chain → leaf < width chain → bits ≤ most → ArriveSingly chain counts [] most →
        NoneAbove chain (events_below Slipping chain counts most) leaf →
        far chain (front (line_in Slipping chain counts content) bits) leaf
        ≡ front (edited (leaf_edits chain counts [] most leaf) (content.bits leaf)) (slipped_back chain counts [] bits leaf) }
    ensures prefix { (chain : List FrameShape) (counts : Counts) (lists : ℕ → List Bool) (says : ℕ → Say) (bits most leaf : ℕ) →
        AreFrames chain → leaf < width chain → bits ≤ most → ArriveSingly chain counts [] most →
        NoneAbove chain (events_below Slipping chain counts most) leaf →
        given_below chain counts [] most leaf ≤ length (lists leaf) →
        far chain (front (line_in Slipping chain counts (content_of lists says)) bits) leaf
        ≡ take (slipped_back chain counts [] bits leaf) (slipped chain counts most leaf (lists leaf)) }
{}
