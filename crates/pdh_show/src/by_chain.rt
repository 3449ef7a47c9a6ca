//! The showing of a frame of each chain, by the shape of its top.

ghost use Rattle.std.specs.Prelude.{◌≡◌, ◌≤◌, ◌*◌, suc, IsTrue, IfOk, Err};
ghost use Rattle.pdh_chain.specs.Chains.{frame_bytes_of};
ghost use Rattle.pdh_show.specs.Showing.{Shows, faults_shown};
ghost use Rattle.pdh_show.specs.declared.stop.ShowStop.TheVariants.{Memory};

use crate::frame::shown_as;
use crate::stop::ShowStop;
use pdh_chain::Chain;
use pdh_ds::{Ds2, Ds3, Ds3C};
use pdh_edge::Feed;
use pdh_eframes::{E2, E3, E4};
use std::alloc::Global;

/// The text that shows the frame of this number, counted from 0, of the top of a chain's line, which list 0 of a feed gives:
/// whether its alignment signal is right, for each tributary the copies of its justification control and how many bits of it
/// the frame carries, and the bytes in hexadecimal. It takes all its memory before the first bit, and then the frames up to
/// this one.
pub fn show<F: Feed>(
    alloc: Global,
    chain: Chain,
    number: u32,
    feed: &mut F,
) -> Result<Vec<u8>, ShowStop>
    requires held { IsTrue ((F.inputs feed.old).holds 0) }
    requires long { suc number * (8 * frame_bytes_of chain) ≤ (F.inputs feed.old).left 0 }
    ensures fed { F.fed feed.old feed.new }
    ensures faults { F.feed_faults feed.new ≡ faults_shown result (F.feed_faults feed.old) }
    ensures ok { IfOk result (λ text. Shows chain number text.items (F.inputs feed.old) (F.inputs feed.new)) }
    ensures memory { result ≡ Err Memory → F.inputs feed.new ≡ F.inputs feed.old }
{
    let name = chain.name();
    match chain {
        Chain::E12 => shown_as::<E2, F>(alloc, name, number, feed),
        Chain::E23 => shown_as::<E3, F>(alloc, name, number, feed),
        Chain::E34 => shown_as::<E4, F>(alloc, name, number, feed),
        Chain::E13 => shown_as::<E3, F>(alloc, name, number, feed),
        Chain::E24 => shown_as::<E4, F>(alloc, name, number, feed),
        Chain::E14 => shown_as::<E4, F>(alloc, name, number, feed),
        Chain::M12 => shown_as::<Ds2, F>(alloc, name, number, feed),
        Chain::M23 => shown_as::<Ds3, F>(alloc, name, number, feed),
        Chain::M13 => shown_as::<Ds3, F>(alloc, name, number, feed),
        Chain::C13 => shown_as::<Ds3C, F>(alloc, name, number, feed),
    }
}
