//! What a slot of a sent frame carries, with a bit out of a store where it reads a tributary.

ghost use Rattle.std.specs.Prelude.{◌≡◌, ◌<◌, None, OnOk, IfOk, IfErr};
ghost use Rattle.pdh_tx.specs.Meaning.{mode_of};
ghost use Rattle.pdh_tx.specs.Tributaries.{meanings, shares, GiveNext, GiveNone, TellNext, GiveBit, ReadSlot, MeetAtRead, StopAtRead, TellAtRead};

use crate::decisions::{carried, overhead_of};
use crate::tributaries::Tributaries;
use crate::tributary::Tributary;
use crate::{Tx, TxStop};
use pdh_shape::{Path, Place, Service, Shape};
use pdh_slips::SlipLog;

impl<S: Shape, C: Tx> Tributaries<S, C> {
    // Takes the bit of a tributary that a slot carries.
    fn read<G: SlipLog>(&mut self, trib: u8, place: Place, log: &mut G) -> Result<bool, TxStop>
        requires { trib < S.TRIBS }
        ensures bit { IfOk result (GiveNext self.old self.new (mode_of G.takes) trib) }
        ensures stop { IfErr result (GiveNone self.old (mode_of G.takes) trib place) }
        ensures told { TellNext self.old (mode_of G.takes) trib place G.SlipLog log.old log.new result }
        ensures same { meanings self.new ≡ meanings self.old }
        ensures shares { shares self.new ≡ shares self.old }
    {
        match self.list[trib as usize].leave(place, log) {
            Ok(bit) => Ok(bit != S::inverted(trib)),
            Err(stop) => Err(stop),
        }
    }

    /// The bit of a slot, after what arrives in it. `odd` is whether the information and justifiable
    /// slots of the frame before hold an odd number of ones.
    pub fn slot_bit<G: SlipLog>(
        &mut self,
        path: Path,
        frame: u64,
        slot: u32,
        say: &Service,
        odd: bool,
        log: &mut G,
    ) -> Result<bool, TxStop>
        requires { slot < S.LEN }
        ensures placed { OnOk result (ReadSlot self.old self.new path (mode_of G.takes) frame slot) }
        ensures free { OnOk result (MeetAtRead self.old path (mode_of G.takes) frame slot None) }
        ensures bit { IfOk result (GiveBit self.old self.new path (mode_of G.takes) frame slot say.now odd) }
        ensures stop { IfErr result (StopAtRead self.old path (mode_of G.takes) frame slot) }
        ensures told { TellAtRead self.old path (mode_of G.takes) frame slot G.SlipLog log.old log.new result }
        ensures same { meanings self.new ≡ meanings self.old }
        ensures shares { shares self.new ≡ shares self.old }
    {
        match carried::<S, Vec<Tributary<C>>>(slot, &self.list) {
            Some(trib) => {
                prove!(trib < S::TRIBS);
                let place = Place {
                    path,
                    trib: trib + 1,
                    frame,
                    slot,
                };
                self.read(trib, place, log)
            }
            None => Ok(overhead_of::<S, Vec<Tributary<C>>>(S::role(slot), say, odd, &self.list)),
        }
    }
}
