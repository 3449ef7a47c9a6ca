//! Two terminals from one number and two scripts.

ghost use Rattle.std.specs.Prelude.{◌≡◌, ◌∷◌, IfOk, OnErr};
ghost use Rattle.pdh_line.specs.Sending.{HasStores};
ghost use Rattle.pdh_chain.specs.Calls.{AreOfChain};
ghost use Rattle.pdh_chain.specs.Trees.{HasNoStores};
ghost use Rattle.pdh_chain.specs.declared.chain.Chain.{Chain};
ghost use Rattle.pdh_duplex.specs.Session.{IsSetting, ends_of, events_of, session_of, setting_with};

use crate::link::Link;
use crate::session::Duplex;
use crate::unwatched::Unwatched;
use pdh_chain::{
    Chain, ChainRx, ChainTop, ChainTx, E12Receiver, E12Sender, E13Receiver, E13Sender, E23Receiver,
    E23Sender, M12Receiver, M12Sender, Multiplexer,
};
use pdh_clock::Schedule;
use pdh_ds::{Ds2, Ds3, Ds3C};
use pdh_eframes::{E2, E3, E4};
use pdh_locked::Locked;
use pdh_packed::Packed;
use pdh_patterns::clock_of;
use pdh_rx::{Rx, RxNode, Tail};
use pdh_script::Script;
use pdh_shape::Shape;
use pdh_tx::{Leaf, Node};
use pdh_watch::Watch;
use std::alloc::{AllocError, Global};

// What makes a session of a chain, and the watches of both ends.
#[derive(Drop)]
struct Terminals<'a, W: Watch, E: Watch> {
    alloc: Global,
    seed: u64,
    frames: u64,
    to_east: &'a Script,
    to_west: &'a Script,
    west: W,
    east: E,
}

// What a session takes memory for.
#[derive(Drop)]
struct Opened<'a, T: Multiplexer, R: Rx> {
    clock: Schedule,
    frame: Packed,
    to_east: Unwatched<'a, T, R>,
    to_west: Unwatched<'a, T, R>,
}

impl<'a, W: Watch, E: Watch> Terminals<'a, W, E> {
    ghost use Rattle.pdh_duplex.specs.Answers.{Answers, IsOpened, setting_of};

    // All that it takes memory for, or there is no memory.
    fn open<T: ChainTop, R: ChainRx>(&self, chain: Chain) -> Result<Opened<'a, T, R>, AllocError>
        requires types { AreOfChain chain T.shapes R.shapes T.fits }
        requires setting { IsSetting (setting_of chain self.now) }
        ensures { IfOk result (λ o. IsOpened T.Tx R.Rx (setting_of chain self.now) T.LEN o) }
    {
        let clock = clock_of(self.alloc, chain, self.frames)?;
        let frame = Packed::open(self.alloc, T::LEN as usize)?;
        let to_east = Unwatched::open(
            self.alloc,
            chain,
            &clock,
            self.seed,
            self.frames,
            self.to_east,
        )?;
        let to_west = Unwatched::open(
            self.alloc,
            chain,
            &clock,
            self.seed,
            self.frames,
            self.to_west,
        )?;
        Ok(Opened {
            clock,
            frame,
            to_east,
            to_west,
        })
    }

    // The session, by the types of the chain's sender and receiver.
    fn session_with<T: ChainTop, R: ChainRx>(self, chain: Chain) -> Duplex<W, E>
        requires types { AreOfChain chain T.shapes R.shapes T.fits }
        requires setting { IsSetting (setting_of chain self) }
        ensures { Answers W.Watch E.Watch (setting_of chain self.entry) self.entry.west self.entry.east result }
    {
        let opened = match self.open::<T, R>(chain) {
            Ok(opened) => opened,
            Err(why) => {
                return Duplex {
                    session: Err(why),
                    west: self.west,
                    east: self.east,
                };
            }
        };
        let frames = self.frames;
        let clock = opened.clock;
        let mut frame = opened.frame;
        let mut link = Link {
            to_east: opened.to_east.with_watch(self.east),
            to_west: opened.to_west.with_watch(self.west),
        };
        link.run(&clock, T::LEN, frames, &mut frame);
        let session = link.counts();
        Duplex {
            session: Ok(session),
            west: link.to_west.into_watch(),
            east: link.to_east.into_watch(),
        }
    }

    // The session, by the frame of the chain's top, which has stores, and the types of what is below it.
    fn session_stored<S: Shape, C: ChainTx, D: ChainRx>(self, chain: Chain) -> Duplex<W, E>
        requires types { AreOfChain chain (S.shape ∷ C.shapes) (S.shape ∷ D.shapes) (HasStores S.shape × C.fits) }
        requires setting { IsSetting (setting_of chain self) }
        ensures { Answers W.Watch E.Watch (setting_of chain self.entry) self.entry.west self.entry.east result }
    {
        self.session_with::<Node<S, C>, RxNode<S, D>>(chain)
    }

    // The same, where the top has none.
    fn session_locked<S: Shape, C: ChainTx, D: ChainRx>(self, chain: Chain) -> Duplex<W, E>
        requires types { AreOfChain chain (S.shape ∷ C.shapes) (S.shape ∷ D.shapes) (HasNoStores S.shape × C.fits) }
        requires setting { IsSetting (setting_of chain self) }
        ensures { Answers W.Watch E.Watch (setting_of chain self.entry) self.entry.west self.entry.east result }
    {
        self.session_with::<Locked<S, C>, RxNode<S, D>>(chain)
    }

    // The session of a chain.
    fn session(self, chain: Chain) -> Duplex<W, E>
        requires { IsSetting (setting_of chain self) }
        ensures { Answers W.Watch E.Watch (setting_of chain self.entry) self.entry.west self.entry.east result }
    {
        match chain {
            Chain::E12 => self.session_stored::<E2, Leaf, Tail>(chain),
            Chain::E23 => self.session_stored::<E3, Leaf, Tail>(chain),
            Chain::E34 => self.session_stored::<E4, Leaf, Tail>(chain),
            Chain::E13 => self.session_stored::<E3, E12Sender, E12Receiver>(chain),
            Chain::E24 => self.session_stored::<E4, E23Sender, E23Receiver>(chain),
            Chain::E14 => self.session_stored::<E4, E13Sender, E13Receiver>(chain),
            Chain::M12 => self.session_stored::<Ds2, Leaf, Tail>(chain),
            Chain::M23 => self.session_stored::<Ds3, Leaf, Tail>(chain),
            Chain::M13 => self.session_stored::<Ds3, M12Sender, M12Receiver>(chain),
            Chain::C13 => self.session_locked::<Ds3C, M12Sender, M12Receiver>(chain),
        }
    }
}

/// A session of two terminals of a chain, west and east, over so many ticks. Both send the patterns of the seed by the schedule in
/// which neighbouring streams are off to opposite sides; `to_east` disturbs the line from west, and `to_west` that from east. In
/// each frame an end says what its receiver knew before the tick. Each watch sees the events of its end's receiver in order. The
/// error is that memory is wanting, which is before the first bit: the watches come back unchanged then.
pub fn duplex<W: Watch, E: Watch>(
    alloc: Global,
    chain: Chain,
    seed: u64,
    frames: u64,
    to_east: &Script,
    to_west: &Script,
    west: W,
    east: E,
) -> Duplex<W, E>
    requires { IsSetting (setting_with chain seed frames to_east.now to_west.now) }
    ensures session { IfOk result.session (λ session. session ≡ session_of (setting_with chain seed frames to_east.now to_west.now)) }
    ensures west_saw { let z = setting_with chain seed frames to_east.now to_west.now in
        IfOk result.session (λ session. W.saw west (events_of z (ends_of z).west) result.west) }
    ensures east_saw { let z = setting_with chain seed frames to_east.now to_west.now in
        IfOk result.session (λ session. E.saw east (events_of z (ends_of z).east) result.east) }
    ensures unseen { OnErr result.session ((result.west ≡ west) × (result.east ≡ east)) }
{
    Terminals {
        alloc,
        seed,
        frames,
        to_east,
        to_west,
        west,
        east,
    }
    .session(chain)
}
