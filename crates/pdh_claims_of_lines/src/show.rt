//! What callers may rely on of the text of a frame.

ghost use Rattle.std.specs.Prelude.{◌≡◌, ◌≤◌, ◌*◌, suc, Bool, List, drop, codes, IsTrue, IfOk, Err};
ghost use Rattle.pdh_bits.specs.Bits.{bytes_of};
ghost use Rattle.pdh_edge.specs.Ports.{Takes, for_leaf};
ghost use Rattle.pdh_ds.specs.Plans.{ds3c};
ghost use Rattle.pdh_show.specs.Shown.{shown_frame};
ghost use Rattle.pdh_show.specs.declared.stop.ShowStop.TheVariants.{Memory};

use pdh_chain::Chain;
use pdh_edge::Feed;
use pdh_show::{ShowStop, show};
use std::alloc::Global;

/// A frame of a line with C-bit parity is shown by its own shape.
pub fn c13_shown_as_m13<F: Feed>(
    alloc: Global,
    number: u32,
    feed: &mut F,
) -> Result<Vec<u8>, ShowStop>
    requires held { IsTrue ((F.inputs feed.old).holds 0) }
    requires long { suc number * 4760 ≤ (F.inputs feed.old).left 0 }
    ensures { IfOk result (λ text. (line : List Bool) × Takes (for_leaf 0 line) (F.inputs feed.old) (F.inputs feed.new)
        × (text.items ≡ shown_frame ds3c (codes "c13") number (bytes_of (drop (number * 4760) line)))) }
{
    show(alloc, Chain::C13, number, feed)
}

/// Where memory is wanting no call of the feed failed.
pub fn failed_feed_told_as_memory<F: Feed>(alloc: Global, feed: &mut F) -> Result<Vec<u8>, ShowStop>
    requires held { IsTrue ((F.inputs feed.old).holds 0) }
    requires long { 848 ≤ (F.inputs feed.old).left 0 }
    ensures { result ≡ Err Memory → F.feed_faults feed.new ≡ F.feed_faults feed.old }
{
    show(alloc, Chain::E12, 0, feed)
}
