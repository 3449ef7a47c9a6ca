//! The lines that words name.

ghost use Rattle.std.specs.Prelude.{◌≡◌, codes, IfOk};
ghost use Rattle.pdh_chain.specs.declared.chain.Chain.TheVariants.{E24 as chain_e24};
ghost use Rattle.pdh_ds1.specs.Plans.{esf_f_bits, esf_plan};
ghost use Rattle.pdh_ds1_events.specs.Line.{superframe_meaning};
ghost use Rattle.pdh_recording.specs.Given.{bits_left};
ghost use Rattle.pdh_named_lines.specs.Lines.{IsFollowedAs, chain_meaning};

use pdh_candidates::Word;
use pdh_following::{FollowFault, Followed, Progress};
use pdh_health::Framing;
use pdh_named_lines::{Wanted, follow_named, level_of, top_of};
use pdh_readings::BitOrder;
use pdh_recording::Recording;
use pdh_shape::Path;
use std::alloc::Global;
use std::io::{Read, Write};

/// The line of the chain m12 is a DS2.
pub fn ds2_named_as_ds3() -> &'static str
    ensures { result.now ≡ codes "DS2" }
{
    top_of(Word::M12).name
}

/// The line of the chain e12 has 8448 kbit/s.
pub fn rate_of_e3_for_e2() -> u64
    ensures { result ≡ 8448000 }
{
    top_of(Word::E12).rate
}

/// The nodes below the top of the chain e13 have frames of 848 bits.
pub fn nodes_with_the_plan_of_the_top(path: Path) -> Framing
    requires { path.depth ≡ 1 }
    ensures { result ≡ Framing.Frames 848 }
{
    level_of(Word::E13, path).framing
}

/// A line of the chain e24 is followed as that.
pub fn e24_followed_as_e14<R: Read + Drop, W: Write + Drop, P: Progress>(
    alloc: Global,
    order: BitOrder,
    from: u64,
    events: Option<W>,
    recording: &mut Recording<R>,
    progress: &mut P,
) -> Result<Followed<W>, FollowFault>
    ensures { IfOk result (λ followed. IsFollowedAs W.contents (chain_meaning chain_e24) Word.E24 from
        (bits_left R.remaining order recording.old) events followed) }
{
    let wanted = Wanted {
        word: Word::E24,
        order,
        from,
        events,
    };
    follow_named(alloc, wanted, recording, progress)
}

/// A DS1 line of extended superframes is followed as that.
pub fn extended_superframes_followed_as_superframes<R: Read + Drop, W: Write + Drop, P: Progress>(
    alloc: Global,
    order: BitOrder,
    from: u64,
    events: Option<W>,
    recording: &mut Recording<R>,
    progress: &mut P,
) -> Result<Followed<W>, FollowFault>
    ensures { IfOk result (λ followed. IsFollowedAs W.contents (superframe_meaning esf_f_bits esf_plan) Word.Ds1Esf from
        (bits_left R.remaining order recording.old) events followed) }
{
    let wanted = Wanted {
        word: Word::Ds1Esf,
        order,
        from,
        events,
    };
    follow_named(alloc, wanted, recording, progress)
}
