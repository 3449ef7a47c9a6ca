//! The laws of chains of nested multiplexers, whatever the frames of their levels. Each function does
//! nothing: what it ensures is the law.
ghost use Rattle.std.specs.Prelude.{◌≡◌, ◌<◌, ◌≤◌, ℕ, ◌+◌, ◌*◌, Bool, List, [], length, map, take, AllPairs, Some, None};
ghost use Rattle.pdh_shape.specs.declared.role.Service.{Service as Say};
ghost use Rattle.pdh_shape.specs.Frame.{FrameShape, IsFrame};
ghost use Rattle.pdh_shape.specs.Tributary.{HasTributaries};
ghost use Rattle.pdh_line.specs.Events.{Event, IsQuiet};
ghost use Rattle.pdh_shape.specs.OwnNumbers.{store_size};
ghost use Rattle.pdh_line.specs.Sending.{Mode, came_before, read_before, front};
ghost use Rattle.pdh_line.specs.Sending.Mode.{Plain};
ghost use Rattle.pdh_nesting.specs.Chains.{width, top_len, AreFrames, ReadEvenly};
ghost use Rattle.pdh_nesting.specs.Events.{events_below, first_event, NoneEmpty};
ghost use Rattle.pdh_line.specs.Nodes.{Counts};
ghost use Rattle.pdh_nesting.specs.Receiving.{comes_back, back_below};
ghost use Rattle.pdh_nesting.specs.Sending.{Content, Agree, content_of, line_with, given_below, entered_below, AllWithin, AllScheduled, AllTolerated, ArriveSingly, delay};
ghost use Rattle.pdh_nesting.specs.StepOrder.{Keyed, Before, IsLeast, keyed_below, keyed_events};

/// Every event has a list of numbers, and in either mode the events come in the order of their lists.
pub fn events_come_in_step_order()
    ensures listed { (mode : Mode) (chain : List FrameShape) (counts : Counts) (bits : ℕ) →
        map (λ (keyed : Keyed). keyed.1) (keyed_below mode chain counts bits) ≡ events_below mode chain counts bits }
    ensures ordered { (mode : Mode) (chain : List FrameShape) (counts : Counts) (bits : ℕ) →
        AllPairs Before (keyed_below mode chain counts bits) }
{}

/// The first event of so many frames of the top is that with the least list.
pub fn first_event_has_least_list()
    ensures least { (chain : List FrameShape) (counts : Counts) (frames : ℕ) (event : Event) →
        first_event chain counts frames ≡ Some event →
        (key : List ℕ) × IsLeast (keyed_events chain counts frames) (key, event) }
    ensures first { (chain : List FrameShape) (counts : Counts) (frames : ℕ) (key : List ℕ) (event : Event) →
        IsLeast (keyed_events chain counts frames) (key, event) →
        first_event chain counts frames ≡ Some event }
{}

/// Where each tributary that has a store is within the tolerance, over the frames that its node begins
/// or over all that its node has, no store of the chain meets an event.
pub fn no_event_within_tolerance()
    ensures begun { (chain : List FrameShape) (counts : Counts) (frames : ℕ) →
        AreFrames chain → ReadEvenly chain → AllWithin chain counts [] (frames * top_len chain) →
        first_event chain counts frames ≡ None }
    ensures scheduled { (chain : List FrameShape) (counts : Counts) (schedule : List ℕ → ℕ) (frames : ℕ) →
        AreFrames chain → ReadEvenly chain → AllScheduled chain counts schedule [] (frames * top_len chain) →
        AllTolerated chain counts schedule [] → first_event chain counts frames ≡ None }
{}

/// No store underflows within the tolerance, and none does where there is no event and no slot brings
/// a tributary two bits.
pub fn no_store_is_empty()
    ensures within { (chain : List FrameShape) (counts : Counts) (bits : ℕ) →
        AreFrames chain → ReadEvenly chain → AllWithin chain counts [] bits →
        NoneEmpty chain counts [] bits }
    ensures quiet { (chain : List FrameShape) (counts : Counts) (bits : ℕ) →
        AreFrames chain → ArriveSingly chain counts [] bits → events_below Plain chain counts bits ≡ [] →
        NoneEmpty chain counts [] bits }
{}

/// What a store that met no event holds is a number of bits, and at most its size.
pub fn quiet_store_holds_its_bits()
    ensures least { (s : FrameShape) (counts : ℕ → ℕ) (trib frame slot : ℕ) →
        IsFrame s → HasTributaries s → trib < s.tribs → slot ≤ s.len →
        IsQuiet s trib counts frame slot →
        read_before s trib counts frame slot ≤ came_before s counts frame slot }
    ensures most { (s : FrameShape) (counts : ℕ → ℕ) (trib frame slot : ℕ) →
        IsFrame s → HasTributaries s → trib < s.tribs → slot ≤ s.len →
        ((n : ℕ) → counts n ≤ s.len) → IsQuiet s trib counts frame slot →
        came_before s counts frame slot ≤ read_before s trib counts frame slot + store_size }
{}

/// Of the first bits of a line each leaf gets its own first bits, whatever events there are. Where no
/// store underflows, these are a prefix of the leaf's list, and no more than the leaf has given.
pub fn leaves_come_back()
    ensures front { (chain : List FrameShape) (counts : Counts) (content : Content) (bits leaf : ℕ) →
        AreFrames chain → leaf < width chain →
        comes_back chain counts content bits leaf
        ≡ front (content.bits leaf) (back_below chain counts [] bits leaf) }
    ensures given { (chain : List FrameShape) (counts : Counts) (bits leaf : ℕ) →
        AreFrames chain → NoneEmpty chain counts [] bits → leaf < width chain →
        back_below chain counts [] bits leaf ≤ given_below chain counts [] bits leaf }
    ensures prefix { (chain : List FrameShape) (counts : Counts) (lists : ℕ → List Bool) (says : ℕ → Say) (bits leaf : ℕ) →
        AreFrames chain → NoneEmpty chain counts [] bits → leaf < width chain →
        given_below chain counts [] bits leaf ≤ length (lists leaf) →
        comes_back chain counts (content_of lists says) bits leaf
        ≡ take (back_below chain counts [] bits leaf) (lists leaf) }
{}

/// Within the tolerance, of so many frames of the top each leaf gets all that it entered but for the
/// delay.
pub fn leaves_come_back_in_time()
    ensures { (chain : List FrameShape) (counts : Counts) (frames leaf : ℕ) →
        AreFrames chain → AllWithin chain counts [] (frames * top_len chain) → leaf < width chain →
        entered_below chain counts [] (frames * top_len chain) leaf
        ≤ back_below chain counts [] (frames * top_len chain) leaf + delay chain }
{}

/// Where no store underflows, the made bits of a line are decided by what the leaves have given and by
/// the service bits of the frames that are begun: they stay as they are where more is added.
pub fn made_bits_stay()
    ensures { (chain : List FrameShape) (counts : Counts) (bits bit : ℕ) (a b : Content) →
        AreFrames chain → NoneEmpty chain counts [] bits → Agree chain counts bits a b → bit < bits →
        line_with chain counts a bit ≡ line_with chain counts b bit }
{}
