//! Sending a line: its whole frames, up to what stands in the way. A frame that surely meets nothing, and so brings no slip either,
//! is made at once, with those behind it whose bits wait, and any other bit by bit.

ghost use Rattle.std.specs.Prelude.{◌≡◌, ◌+◌, ◌*◌, ◌≤◌, ◌<◌, true, false, length, IsOk, OnOk, IfErr, IfSome};
ghost use Rattle.pdh_packed.specs.Gaining.{gained, IsGrown};
ghost use Rattle.pdh_edge.specs.Ports.{only_waiting, TakesWaiting};
ghost use Rattle.pdh_tx.specs.Meaning.{plan_in};
ghost use Rattle.pdh_tx.specs.Calls.{Draws, IsFed, IsKept, StandsBy, StandsClear, MakesNextAll};
ghost use Rattle.pdh_tx.specs.Telling.{TellsNone};
ghost use Rattle.pdh_chain.specs.Calls.{IsAtStart, IsLinked, RunsOn, StandsFree, MakesFrame, MakesFrameFree, KeepsWaiting, StopsInFrame, StopsFrame, SendsFrames};
ghost use Rattle.pdh_chain.specs.Slipping.{TellsInFrame, TellsFrame, TellsFrames};

use crate::ahead::Ahead;
use crate::multiplexer::Multiplexer;
use crate::saying::{channel_of, next_service};
use pdh_clock::Schedule;
use pdh_edge::{Drain, Failed, Feed, Port, Waiting};
use pdh_packed::Packed;
use pdh_slips::SlipLog;
use pdh_tx::{Tx, TxStop};

/// Why not all frames were sent.
#[derive(Clone, Copy, Debug, PartialEq, Eq)]
pub enum SendStop {
    /// The line has no next bit.
    Sender(TxStop),
    /// A call that takes bits failed in a frame in whose way nothing stands.
    TakeFailed,
    /// A bit couldn't be put.
    WriteFailed,
}

// Makes the next bits of the line, so many, one by one, and keeps them in the buffer in place of what it held. The log is told of
// each slip when it comes.
fn make_bits<T: Tx, F: Feed, G: SlipLog>(
    sender: &mut T,
    clock: &Schedule,
    len: usize,
    frame: &mut Packed,
    feed: &mut F,
    log: &mut G,
) -> Result<(), TxStop>
    requires running { T.is_stopped sender.old ≡ false }
    requires fed { IsFed (T.meaning sender.old) clock.now (F.inputs feed.old) }
    requires stands { StandsBy T.stands_at sender.old (plan_in clock.now G.takes) }
    requires room { len ≤ frame.old.capacity }
    ensures made { OnOk result (MakesFrame T.Tx sender.old sender.new (plan_in clock.now G.takes) len frame.new.bits
        (F.inputs feed.old) (F.inputs feed.new)) }
    ensures stops { IfErr result (λ stop. StopsInFrame T.Tx sender.old (plan_in clock.now G.takes) len stop
        (F.inputs feed.old) (F.inputs feed.new) (F.feed_faults feed.old) (F.feed_faults feed.new)) }
    ensures told { TellsInFrame T.Tx sender.old (plan_in clock.now G.takes) len G.SlipLog log.old log.new result }
    ensures running { OnOk result (T.is_stopped sender.new ≡ false) }
    ensures room { frame.new.capacity ≡ frame.old.capacity }
    ensures fed { Draws F.Feed feed.old feed.new result }
    ensures kept { IsKept T.meaning T.says sender.old sender.new }
{
    frame.clear();
    for _made in 0..len {
        let bit = sender.next(clock, feed, log)?;
        frame.push(bit);
    }
    Ok(())
}

// Appends the next bits of the line, so many, which surely meet nothing and take bits that wait alone.
fn make_waiting<T: Tx, F: Feed, G: SlipLog>(
    sender: &mut T,
    clock: &Schedule,
    len: usize,
    frame: &mut Packed,
    feed: &mut F,
    log: &mut G,
)
    requires running { T.is_stopped sender.old ≡ false }
    requires fed { IsFed (T.meaning sender.old) clock.now (F.inputs feed.old) }
    requires clear { StandsClear T.meaning T.stands_at sender.old (plan_in clock.now G.takes) len (only_waiting (F.inputs feed.old) (F.waits feed.old)) }
    requires room { length frame.old.bits + len ≤ frame.old.capacity }
    ensures grown { IsGrown frame.old frame.new len }
    ensures takes { TakesWaiting (F.inputs feed.old) (F.inputs feed.new) (F.waits feed.old) (F.waits feed.new) }
    ensures waiting { MakesNextAll T.meaning T.says T.stands_at T.stands_for sender.old sender.new (plan_in clock.now G.takes) len
        (gained frame.old frame.new) (only_waiting (F.inputs feed.old) (F.waits feed.old)) (only_waiting (F.inputs feed.new) (F.waits feed.new)) }
    ensures told { TellsNone G.SlipLog log.old log.new }
    ensures running { T.is_stopped sender.new ≡ false }
    ensures fed { F.fed feed.old feed.new }
    ensures unfailed { F.feed_faults feed.new ≡ F.feed_faults feed.old }
    ensures kept { IsKept T.meaning T.says sender.old sender.new }
{
    let mut waiting = Waiting::of(feed);
    match sender.make_clear(clock, &mut waiting, log, len, frame) {
        Ok(()) => {}
        // No call for a bit that waits fails.
        Err(Failed) => unreachable!(),
    }
}

// Makes the next bits of the line, so many, and keeps them in the buffer in place of what it held: at once where no fewer, `clear` of
// them, surely meet nothing, and of bits that wait alone where these are surely enough. Bits made at once bring no slip, so the log is
// then told of nothing.
fn make_frames<T: Tx, F: Feed, G: SlipLog>(
    sender: &mut T,
    clock: &Schedule,
    len: usize,
    clear: usize,
    waits: bool,
    frame: &mut Packed,
    feed: &mut F,
    log: &mut G,
) -> Result<(), SendStop>
    requires running { T.is_stopped sender.old ≡ false }
    requires fed { IsFed (T.meaning sender.old) clock.now (F.inputs feed.old) }
    requires free { StandsFree T.Tx sender.old (plan_in clock.now G.takes) clear (F.inputs feed.old) }
    requires waiting { waits ≡ true → StandsFree T.Tx sender.old (plan_in clock.now G.takes) len (only_waiting (F.inputs feed.old) (F.waits feed.old)) }
    requires room { len ≤ frame.old.capacity }
    ensures made { OnOk result (MakesFrameFree T.Tx sender.old sender.new (plan_in clock.now G.takes) len clear frame.new.bits
        (F.inputs feed.old) (F.inputs feed.new)) }
    ensures waiting { waits ≡ true → len ≤ clear → OnOk result (KeepsWaiting T.Tx sender.old (plan_in clock.now G.takes) len
        (only_waiting (F.inputs feed.old) (F.waits feed.old)) (only_waiting (F.inputs feed.new) (F.waits feed.new))) }
    ensures sure { waits ≡ true → len ≤ clear → IsOk result }
    ensures stops { IfErr result (StopsFrame T.Tx sender.old (plan_in clock.now G.takes) len
        (F.inputs feed.old) (F.inputs feed.new) (F.feed_faults feed.old) (F.feed_faults feed.new)) }
    ensures told { TellsFrame T.Tx sender.old (plan_in clock.now G.takes) len clear (F.inputs feed.old) G.SlipLog log.old log.new result }
    ensures running { OnOk result (T.is_stopped sender.new ≡ false) }
    ensures room { frame.new.capacity ≡ frame.old.capacity }
    ensures fed { Draws F.Feed feed.old feed.new result }
    ensures kept { IsKept T.meaning T.says sender.old sender.new }
{
    if clear < len {
        return match make_bits(sender, clock, len, frame, feed, log) {
            Ok(()) => Ok(()),
            Err(stop) => Err(SendStop::Sender(stop)),
        };
    }
    frame.clear();
    if waits {
        make_waiting(sender, clock, len, frame, feed, log);
        return Ok(());
    }
    match sender.make_clear(clock, feed, log, len, frame) {
        Ok(()) => Ok(()),
        Err(Failed) => Err(SendStop::TakeFailed),
    }
}

// How many frames of so many bits are made at once, at most: as many as the buffer has room for, and one where each says another bit of
// a code.
fn at_once(feac: Option<u8>, room: usize, len: u32) -> u64
    ensures some { 0 < result }
    ensures room { len ≤ room → result * len ≤ room }
    ensures alone { IfSome feac (λ code. result ≡ 1) }
{
    match (feac, room.checked_div(len as usize)) {
        (None, Some(frames)) if frames > 0 => frames as u64,
        _ => 1,
    }
}

/// Makes so many frames of a multiplexer's line from its first bit on, and puts their bits to output
/// 0 of the port, whole frames only: the bits of a frame are put once all of them are made, and those of as many frames as the buffer
/// has room for are put by one call where they surely meet nothing and take bits that wait alone. The
/// frames say what `feac` asks for. Where the log takes slips, it is told of each when it comes.
pub fn send_frames<T: Multiplexer, P: Port, G: SlipLog>(
    sender: &mut T,
    clock: &Schedule,
    len: u32,
    frames: u64,
    feac: Option<u8>,
    frame: &mut Packed,
    port: &mut P,
    log: &mut G,
) -> Result<(), SendStop>
    requires sender { IsAtStart T.Tx sender.old (plan_in clock.now G.takes) len }
    requires port { IsLinked (T.meaning sender.old) clock.now (P.inputs port.old) (P.outputs port.old) }
    requires code { IfSome feac (λ code. code < 64) }
    requires room { len ≤ frame.old.capacity }
    ensures sent { SendsFrames T.Tx P.Feed P.Drain P.kept sender.old sender.new (plan_in clock.now G.takes) feac len frames port.old port.new result }
    ensures told { TellsFrames T.Tx sender.old (plan_in clock.now G.takes) (frames * len) G.SlipLog log.old log.new result }
    ensures runs { RunsOn T.Tx sender.old sender.new result }
    ensures room { frame.new.capacity ≡ frame.old.capacity }
{
    let mut channel = channel_of(feac);
    let mut ahead = Ahead::unknown();
    let most = at_once(feac, frame.capacity(), len);
    let mut whole = 0;
    while whole < frames {
        sender.set(next_service(&mut channel));
        let known = ahead.look::<T, P, G>(sender, clock, len, frames - whole, most, port);
        let count = known.waiting.min(most).min(frames - whole).max(1);
        let bits = count as usize * len as usize;
        let waits = known.waiting > 0;
        if let Err(stop) = make_frames(sender, clock, bits, known.clear, waits, frame, port, log) {
            return Err(stop);
        }
        if let Err(Failed) = port.put_all(0, frame) {
            return Err(SendStop::WriteFailed);
        }
        ahead = known.after(count, bits);
        whole += count;
    }
    Ok(())
}
