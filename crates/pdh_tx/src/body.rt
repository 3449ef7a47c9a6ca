//! The tributaries of a multiplexer as a trait, of which there are two kinds: with elastic stores, and without.

ghost use Rattle.std.specs.Prelude.{◌≡◌, ◌+◌, ◌*◌, ◌<◌, ◌≤◌, ℕ, suc, List, length, IfOk, IfErr, OnOk, OnErr};
ghost use Rattle.pdh_packed.specs.Gaining.{gained, IsGrown};
ghost use Rattle.pdh_shape.specs.declared.place.Path.{Path};
ghost use Rattle.pdh_tx.specs.Meaning.{Plan, Supply, Meaning, IsNodeOf, plan_in, StaysFree};
ghost use Rattle.pdh_tx.specs.Calls.{Draws, DrawsClear, Appends, IsPieceOf};
ghost use Rattle.pdh_tx.specs.Node.{node_frame};
ghost use Rattle.pdh_tx.specs.Follows.{Follows};
ghost use Rattle.pdh_tx.specs.Body.{Kind, IsKind, sender_meaning, AreFedBelow, AreSlotsFree, GivesBit, StopsAtSlot, TellsSlot, IsPieceClear, GivesPiece, HaltsInPiece};
ghost use Rattle.pdh_tx.specs.Batches.{batch, AreSomeUpTo, AreSlotsClear, GathersSlots, HaltsGathering, IsGatheredFor, GivesGathered, IsAllGathered};
ghost use Rattle.pdh_tx.specs.Telling.{TellsNone};

use crate::TxStop;
use crate::pieces::Piece;
use pdh_clock::Schedule;
use pdh_edge::{Failed, Feed};
use pdh_packed::Packed;
use pdh_shape::{Path, Service, Shape};
use pdh_slips::SlipLog;

/// The tributaries of a multiplexer, of one kind: with stores, or without.
pub trait Body<S: Shape>: Drop {
    /// How they are taken.
    ghost kind: { Kind };

    /// What each makes, takes and meets.
    ghost meanings: { Self → List Meaning };

    /// They have made all bits before slot t of frame n of their node, which is at this path.
    ghost stands: { Self → Path → Plan → ℕ → ℕ → Type 0 };

    /// They have made the bits of the slots of frame n below slot t.
    ghost stood: { Self → Path → Plan → ℕ → ℕ → Type 0 };

    /// What they hold, where they stand there, is what this supply gives.
    ghost holds: { Self → Path → Plan → Supply → ℕ → ℕ → Type 0 };

    /// The same, where they have made those slots.
    ghost held: { Self → Path → Plan → Supply → ℕ → ℕ → Type 0 };

    /// They have made all bits before slot t of frame n, and their children those that come before bit `end` of the node's line.
    ghost gathered: { Self → Path → Plan → ℕ → ℕ → ℕ → Type 0 };

    /// What they hold then is what this supply gives.
    ghost holds_gathered: { Self → Path → Plan → Supply → ℕ → ℕ → ℕ → Type 0 };

    /// Makes the bit of a slot, with all its steps, where the frame says `say` and `odd` is whether
    /// the information and justifiable slots of the frame before hold an odd number of ones.
    fn bit<F: Feed, G: SlipLog>(
        &mut self,
        path: Path,
        frame: u64,
        slot: u32,
        say: &Service,
        odd: bool,
        clock: &Schedule,
        feed: &mut F,
        log: &mut G,
    ) -> Result<bool, TxStop>
        requires slot { slot < S.LEN }
        requires fed { AreFedBelow S.shape path (meanings self.old) clock.now (F.inputs feed.old) }
        requires placed { stands self.old path (plan_in clock.now G.takes) frame slot }
        ensures made { IfOk result (λ bit.
            GivesBit kind meanings stood holds held S.shape self.old self.new path (plan_in clock.now G.takes) frame slot say.now odd bit
            (F.inputs feed.old) (F.inputs feed.new)) }
        ensures err { IfErr result (λ stop. StopsAtSlot kind (meanings self.old) path (plan_in clock.now G.takes) frame slot stop
            (F.inputs feed.old) (F.inputs feed.new) (F.feed_faults feed.old) (F.feed_faults feed.new)) }
        ensures told { TellsSlot kind (meanings self.old) path (plan_in clock.now G.takes) frame slot G.SlipLog log.old log.new result }
        ensures fed { Draws F.Feed feed.old feed.new result }
        ensures same { meanings self.new ≡ meanings self.old };

    /// How many slots from one on, up to so many and over the ends of frames, surely meet nothing, and so bring no slip where
    /// logs of type `G` take slips.
    fn quiet<F: Feed, G: SlipLog>(
        &self,
        path: Path,
        frame: u64,
        slot: u32,
        clock: &Schedule,
        feed: &F,
        most: usize,
    ) -> usize
        requires slot { slot < S.LEN }
        requires fed { AreFedBelow S.shape path (meanings self.now) clock.now (F.inputs feed.now) }
        requires placed { stands self.now path (plan_in clock.now G.takes) frame slot }
        ensures most { result ≤ most }
        ensures free { AreSlotsFree kind S.shape (meanings self.now) path (plan_in clock.now G.takes) frame slot result (F.inputs feed.now) };

    /// Makes the bits of a piece of a frame, with all their steps, in whose way nothing stands and which
    /// bring no slip, appends them to `into`, and answers whether its information and justifiable slots
    /// hold an odd number of ones.
    fn piece<F: Feed, G: SlipLog>(
        &mut self,
        at: Piece,
        say: &Service,
        odd: bool,
        clock: &Schedule,
        feed: &mut F,
        log: &mut G,
        into: &mut Packed,
    ) -> Result<bool, Failed>
        requires piece { IsPieceOf S.LEN at.slot at.len }
        requires room { length into.old.bits + at.len ≤ into.old.capacity }
        requires fed { AreFedBelow S.shape at.path (meanings self.old) clock.now (F.inputs feed.old) }
        requires placed { stands self.old at.path (plan_in clock.now G.takes) at.frame at.slot }
        requires clear { IsPieceClear kind (meanings self.old) (plan_in clock.now G.takes) at (F.inputs feed.old) }
        ensures appended { Appends into.old into.new at.len result }
        ensures made { IfOk result (λ is_odd.
            GivesPiece kind meanings stood holds held S.shape self.old self.new (plan_in clock.now G.takes) at say.now odd is_odd
            (gained into.old into.new) (F.inputs feed.old) (F.inputs feed.new)) }
        ensures halts { OnErr result (HaltsInPiece kind (meanings self.old) (plan_in clock.now G.takes) at
            (F.inputs feed.old) (F.inputs feed.new)) }
        ensures told { TellsNone G.SlipLog log.old log.new }
        ensures fed { DrawsClear F.Feed feed.old feed.new result }
        ensures same { meanings self.new ≡ meanings self.old };

    /// Takes all bits of the children that the next slots bring, so many from a slot on and over the ends of frames, in whose way
    /// nothing stands and which bring no slip.
    fn gather<F: Feed, G: SlipLog>(
        &mut self,
        path: Path,
        frame: u64,
        slot: u32,
        len: usize,
        clock: &Schedule,
        feed: &mut F,
        log: &mut G,
    ) -> Result<(), Failed>
        requires slot { slot < S.LEN }
        requires few { AreSomeUpTo (batch * S.LEN) len }
        requires fed { AreFedBelow S.shape path (meanings self.old) clock.now (F.inputs feed.old) }
        requires placed { stands self.old path (plan_in clock.now G.takes) frame slot }
        requires clear { AreSlotsClear kind S.shape (meanings self.old) path (plan_in clock.now G.takes) frame slot (frame * S.shape.len + slot + len) (F.inputs feed.old) }
        ensures made { OnOk result (GathersSlots kind meanings gathered holds holds_gathered self.old self.new path (plan_in clock.now G.takes) frame slot
            (frame * S.shape.len + slot + len) (F.inputs feed.old) (F.inputs feed.new)) }
        ensures halts { OnErr result (HaltsGathering kind (meanings self.old) path (plan_in clock.now G.takes) frame slot
            (frame * S.shape.len + slot + len) (F.inputs feed.old) (F.inputs feed.new)) }
        ensures told { TellsNone G.SlipLog log.old log.new }
        ensures fed { DrawsClear F.Feed feed.old feed.new result }
        ensures same { meanings self.new ≡ meanings self.old };

    /// Makes the bits of a piece of a frame from what was gathered, appends them to `into`, and answers whether its information
    /// and justifiable slots hold an odd number of ones. Logs of type `G` take slips, or not.
    fn gathered_piece<G: SlipLog>(
        &mut self,
        at: Piece,
        say: &Service,
        odd: bool,
        clock: &Schedule,
        into: &mut Packed,
    ) -> bool
        requires piece { IsPieceOf S.LEN at.slot at.len }
        requires room { length into.old.bits + at.len ≤ into.old.capacity }
        requires node { IsNodeOf clock.now.levels (node_frame S.shape at.path) }
        requires placed { IsGatheredFor S.shape (gathered self.old) (plan_in clock.now G.takes) at }
        ensures grown { IsGrown into.old into.new at.len }
        ensures made { (end : ℕ) → gathered self.old at.path (plan_in clock.now G.takes) at.frame at.slot end → at.frame * S.shape.len + at.slot + at.len ≤ end
            → GivesGathered meanings gathered holds_gathered S.shape self.old self.new (plan_in clock.now G.takes) at end say.now odd result (gained into.old into.new) }
        ensures same { meanings self.new ≡ meanings self.old };

    /// Puts what is left of what was gathered back into the stores.
    fn scatter(&mut self)
        requires placed { IsAllGathered S.shape (gathered self.old) }
        ensures placed { (path : Path) (plan : Plan) (n t : ℕ) → t < S.shape.len → gathered self.old path plan n t (n * S.shape.len + t) → stands self.new path plan n t }
        ensures held { (path : Path) (plan : Plan) (supply : Supply) (n t : ℕ) → t < S.shape.len → gathered self.old path plan n t (n * S.shape.len + t)
            → holds_gathered self.old path plan supply n t (n * S.shape.len + t) → holds self.new path plan supply n t }
        ensures same { meanings self.new ≡ meanings self.old };

    /// The kind's numbers agree.
    ghost is_kind: { (b : Self) → IsKind S.shape kind };

    /// There is one for each tributary of the shape.
    ghost count: { (b : Self) → length (meanings b) ≡ S.shape.tribs };

    /// The slot that follows a slot is made next.
    ghost stands_next: { (b : Self) (path : Path) (plan : Plan) (n t n' t' : ℕ) → Follows S.shape n t n' t'
        → stood b path plan n (suc t) → stands b path plan n' t' };

    /// And what is held is held before it.
    ghost holds_next: { (b : Self) (path : Path) (plan : Plan) (supply : Supply) (n t n' t' : ℕ) → Follows S.shape n t n' t'
        → held b path plan supply n (suc t) → holds b path plan supply n' t' };

    /// And so it is with what was gathered.
    ghost gathered_next: { (b : Self) (path : Path) (plan : Plan) (end n t n' t' : ℕ) → Follows S.shape n t n' t'
        → gathered b path plan n (suc t) end → gathered b path plan n' t' end };

    /// And with what is held then.
    ghost holds_gathered_next: { (b : Self) (path : Path) (plan : Plan) (supply : Supply) (end n t n' t' : ℕ) → Follows S.shape n t n' t'
        → holds_gathered b path plan supply n (suc t) end → holds_gathered b path plan supply n' t' end };

    /// A longer line takes no fewer bits.
    ghost grows: { (b : Self) (path : Path) (plan : Plan) (x k : ℕ) → (sender_meaning S.shape kind path (meanings b)).given plan x k
        ≤ (sender_meaning S.shape kind path (meanings b)).given plan (suc x) k };

    /// Longer lists bring nothing into its way.
    ghost longer: { (b : Self) (path : Path) → StaysFree (sender_meaning S.shape kind path (meanings b)) };
}
