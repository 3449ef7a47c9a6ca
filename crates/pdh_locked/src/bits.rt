//! Making the line of a multiplexer without stores bit by bit.

ghost use Rattle.std.specs.Prelude.{◌≡◌, ◌<◌, IfOk, IfErr};
ghost use Rattle.pdh_tx.specs.Meaning.{plan_in};
ghost use Rattle.pdh_tx.specs.Calls.{Draws};
ghost use Rattle.pdh_locked.specs.Children.{meanings, AreFed, HaveMadeSome, ReadOne, StopAtRead, TellAtRead};

use crate::children::Children;
use pdh_clock::Schedule;
use pdh_edge::Feed;
use pdh_shape::Shape;
use pdh_slips::SlipLog;
use pdh_tx::{Tx, TxStop};

impl<S: Shape, C: Tx> Children<S, C> {
    /// Takes the next bit of a child, as the line has it.
    pub fn read<F: Feed, G: SlipLog>(
        &mut self,
        trib: u8,
        clock: &Schedule,
        feed: &mut F,
        log: &mut G,
    ) -> Result<bool, TxStop>
        requires trib { trib < S.TRIBS }
        requires fed { AreFed self.old clock.now (F.inputs feed.old) }
        requires placed { HaveMadeSome self.old (plan_in clock.now G.takes) }
        ensures read { IfOk result (λ bit. ReadOne self.old self.new (plan_in clock.now G.takes) trib bit
            (F.inputs feed.old) (F.inputs feed.new)) }
        ensures stop { IfErr result (λ stop. StopAtRead self.old (plan_in clock.now G.takes) trib stop
            (F.inputs feed.old) (F.inputs feed.new) (F.feed_faults feed.old) (F.feed_faults feed.new)) }
        ensures told { TellAtRead self.old (plan_in clock.now G.takes) trib G.SlipLog log.old log.new result }
        ensures fed { Draws F.Feed feed.old feed.new result }
        ensures same { meanings self.new ≡ meanings self.old }
    {
        let bit = self.list[trib as usize].next(clock, feed, log)?;
        Ok(bit != S::inverted(trib))
    }
}
