//! The laws of received lines after their last line error. Each function does nothing: what it ensures is the law.
ghost use Rattle.std.specs.Prelude.{◌≡◌, ◌<◌, ◌≤◌, ℕ, ◌+◌, ◌-◌, ◌*◌, Bool, true, List, [], length};
ghost use Rattle.pdh_shape.specs.declared.role.Service.{Service as Say};
ghost use Rattle.pdh_shape.specs.Frame.{FrameShape, IsFrame, is_right};
ghost use Rattle.pdh_shape.specs.Tributary.{HasTributaries};
ghost use Rattle.pdh_eframes.specs.Plans.{e2, e3, e4};
ghost use Rattle.pdh_ds.specs.Plans.{ds2, ds3, ds3c};
ghost use Rattle.pdh_line.specs.Tracking.{frame_of, frames_in};
ghost use Rattle.pdh_line.specs.Receiving.{received};
ghost use Rattle.pdh_line.specs.Sending.Mode.{Plain};
ghost use Rattle.pdh_line.specs.Sending.{Source, line_bit, front};
ghost use Rattle.pdh_line.specs.Nodes.{Counts};
ghost use Rattle.pdh_nesting.specs.Chains.{width, AreFrames};
ghost use Rattle.pdh_nesting.specs.Sending.{Content, line_with, content_of, given_below};
ghost use Rattle.pdh_nesting.specs.Events.{NoneEmpty};
ghost use Rattle.pdh_nesting.specs.Receiving.{far};
ghost use Rattle.pdh_recovery.specs.Losing.{KeepsRight};
ghost use Rattle.pdh_recovery.specs.Recovering.{Rejoins, RejoinsList, AllRight, AreRight, SearchesFrom, IsQuietFrom, IsClearFrom, RecoversAfter};
ghost use Rattle.pdh_recovery.specs.Flipped.{IsOneAlignment, AreCopiesEqual, AreFewWrong, ReadsTheSame};
ghost use Rattle.pdh_recovery.specs.Downwards.{ChildPlace, IsQuietDown, KeepRight, PathComesBack, LeafComesBack};

/// A right frame completes no loss of alignment unless the frame before it completed one, in each shape.
pub fn right_frame_loses_nothing()
    ensures e2 { KeepsRight e2 }
    ensures e3 { KeepsRight e3 }
    ensures e4 { KeepsRight e4 }
    ensures ds2 { KeepsRight ds2 }
    ensures ds3 { KeepsRight ds3 }
    ensures ds3c { KeepsRight ds3c }
{}

/// Where a received line rejoins a line of right frames at (e, u), is quiet with m frames and goes on for three more, the tracking of
/// each front of it that is so long ends in the same open frames, at places of the sent frames, which begin before the m frames
/// are over. The lines that nodes send are such lines. The place from which it is searched is one alone.
pub fn one_level_comes_back()
    ensures once { (s : FrameShape) (line : List Bool) (e q r : ℕ) → 0 < s.len →
        SearchesFrom s line e q → SearchesFrom s line e r → q ≡ r }
    ensures line { (s : FrameShape) (line : List Bool) (sent : ℕ → Bool) (e u m : ℕ) →
        IsFrame s → KeepsRight s → AllRight s sent (u + (length line - e)) →
        IsClearFrom s line sent e u m → RecoversAfter s line e u m }
    ensures node { (s : FrameShape) (source : Source) (line : List Bool) (e u m : ℕ) →
        IsFrame s → KeepsRight s → IsClearFrom s line (line_bit s source) e u m → RecoversAfter s line e u m }
    ensures list { (s : FrameShape) (line sent : List Bool) (e u m : ℕ) →
        IsFrame s → KeepsRight s → AreRight s sent → RejoinsList line sent e u →
        IsQuietFrom s line e u m → e + (m + 3) * s.len ≤ length line → RecoversAfter s line e u m }
{}

/// Where a received line differs from a sent one in flipped bits alone, and these leave it one alignment from its first bit on
/// and the majority of a tributary's control copies in each frame, the tributary gets as many bits, each from its own place.
pub fn errors_are_contained()
    ensures list { (s : FrameShape) (line sent : List Bool) (trib : ℕ) →
        IsFrame s → length line ≡ length sent → IsOneAlignment s line → AreRight s sent →
        ((k : ℕ) → k < frames_in s sent → AreCopiesEqual s trib (frame_of s sent k)) →
        AreFewWrong s trib line sent → ReadsTheSame s trib line sent }
    ensures line { (s : FrameShape) (source : Source) (line : List Bool) (trib : ℕ) →
        IsFrame s → HasTributaries s → trib < s.tribs → IsOneAlignment s line →
        AreFewWrong s trib line (front (line_bit s source) (length line)) →
        ReadsTheSame s trib line (front (line_bit s source) (length line)) }
{}

/// A received line that rejoins the first bits of a sent one, as a list, rejoins that line. So a line that was sent, written and
/// disturbed rejoins what was sent.
pub fn rejoined_front_is_rejoined_line()
    ensures line { (received : List Bool) (sent : ℕ → Bool) (bits e u : ℕ) →
        RejoinsList received (front sent bits) e u → Rejoins received sent e u }
{}

/// Where a node's received line comes back to a line that was sent in plain mode, in which no store slips, each tributary's received
/// line rejoins its own line, at one place.
pub fn tributaries_come_back()
    ensures once { (s : FrameShape) (counts : ℕ → ℕ) (line : List Bool) (e u trib e' u' other_e other_u : ℕ) → 0 < s.len →
        ChildPlace s counts line e u trib e' u' → ChildPlace s counts line e u trib other_e other_u →
        (e' ≡ other_e) × (u' ≡ other_u) }
    ensures line { (s : FrameShape) (source : Source) (line : List Bool) (e u m trib : ℕ) → source.mode ≡ Plain →
        IsFrame s → HasTributaries s → KeepsRight s → trib < s.tribs →
        IsClearFrom s line (line_bit s source) e u m →
        (e' : ℕ) × (u' : ℕ) × ChildPlace s (source.counts trib) line e u trib e' u'
        × Rejoins (received s trib line) (source.inputs trib) e' u' }
{}

/// Where each node on the way to a leaf is quiet from its own rejoining place on, each comes back to its line, and the leaf's bits
/// rejoin its own from the last of these places on.
/// Where the leaf's list holds what it gave for the bits of the line that were made, and no store underflowed in making them, these
/// are bits of the list.
pub fn leaves_come_back()
    ensures lists { (chain : List FrameShape) (line : List Bool) (leaf : ℕ) →
        AreFrames chain → KeepRight chain → leaf < width chain →
        LeafComesBack chain line leaf (far chain line leaf) }
    ensures line { (chain : List FrameShape) (counts : Counts) (content : Content) (line : List Bool)
        (e u leaf : ℕ) (quiet : List ℕ) → AreFrames chain → KeepRight chain → leaf < width chain →
        Rejoins line (line_with chain counts content) e u → IsQuietDown chain counts [] line e u leaf quiet →
        PathComesBack chain counts content line e u leaf quiet }
{}
