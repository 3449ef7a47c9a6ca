//! The alignment machine of a framed 2048 kbit/s line: it searches frames and then multiframes, and
//! loses them.

ghost use Rattle.std.specs.Prelude.{◌≡◌, ◌<◌, ◌≤◌, ◌+◌, ◌*◌, ◌%◌, ◌/◌, ◌-◌, ◌^◌, Bool, List, [], ◌∷◌, ◌++◌, length, take, drop, IsTrue, IfOk, OnOk, OnErr};
ghost use Rattle.pdh_bits.specs.Bits.{bit_value};
ghost use Rattle.pdh_packed.specs.Words.{bounded};
ghost use Rattle.pdh_edge.specs.Ports.{Puts, PutsPart, HasCause, for_leaf};
ghost use Rattle.pdh_watch.specs.Seen.{SawPart};
ghost use Rattle.pdh_watch.specs.declared.kind.TheConstants.Kind.{LOST};
ghost use Rattle.pdh_line.specs.Paths.{top};
ghost use Rattle.pdh_events.specs.Telling.{tell, next_bit};
ghost use Rattle.pdh_events.specs.laws.QuietLaws.{IsQuiet};
ghost use Rattle.pdh_g706.specs.declared.stage.Stage.TheVariants.{Searching, Aligned, Framed};
ghost use Rattle.pdh_g706.specs.Machine.Phase.{Searching as SearchingPhase};
ghost use Rattle.pdh_g706.specs.Tracking.{e1_far, multiframes_in, blocks_in, errors_in, counted};
ghost use Rattle.pdh_events.specs.Chain.{bits_events};
ghost use Rattle.pdh_g706.specs.Events.{rise, e1_bit_events};
ghost use Rattle.pdh_g706.specs.Machine.{Fits, Waits, held_on, last_bits, search_turn, framing_turn, is_false_group, group_phase, turn as turn_of};
ghost use Rattle.pdh_g706.specs.View.{phase, is_framed, aligned_here, framed_here, block_here, StandsFor, Becomes, Turned, Gains, GainsPart};

use crate::counts::{Counts, Group};
use crate::held::{errs, first_multiframe, is_confirmed, loses, put_frames, rejected};
use crate::payload::Payload;
use crate::stage::Stage;
use crate::tell::{judge, note_block, note_frames, note_loss};
use pdh_edge::{Drain, Failed};
use pdh_events::{AisRun, note_kind};
use pdh_packed::{BitRing, Packed};
use pdh_shape::TOP;
use pdh_watch::{Kind, Watch};
use std::alloc::{AllocError, Global};

/// Finds frames and CRC-4 multiframes in a 2048 kbit/s line, and loses them (G.706, 4). Only `open` takes memory.
#[derive(Drop)]
pub struct E1Align {
    stage: Stage,
    // 64 frames at most
    held: BitRing,
    // that of the frame that was put last
    payload: Payload,
    group: Group,
    counts: Counts,
    // the number of the next bit
    bits: u64,
    ais: AisRun,
    // whether the last odd frame that was delivered has the alarm
    alarm: bool,
}

impl E1Align {
    /// A machine that searches, and has taken no bit; or it finds no memory.
    pub fn open(alloc: Global) -> Result<E1Align, AllocError>
        ensures stands { IfOk result (λ align. StandsFor align []) }
        ensures phase { IfOk result (λ align. phase align ≡ SearchingPhase []) }
    {
        Ok(E1Align {
            stage: Stage::Searching,
            held: BitRing::open(alloc, 16384)?,
            payload: Payload::open(alloc)?,
            group: Group::NONE,
            counts: Counts::NONE,
            bits: 0,
            ais: AisRun::new(512),
            alarm: false,
        })
    }

    /// How many multiframes were delivered. At `u64::MAX` the count stands.
    pub fn multiframes(&self) -> u64
        ensures { (line : List Bool) → StandsFor self.now line → result ≡ counted (multiframes_in line) }
    {
        self.counts.multiframes
    }

    /// How many blocks were judged. At `u64::MAX` the count stands.
    pub fn blocks(&self) -> u64
        ensures { (line : List Bool) → StandsFor self.now line → result ≡ counted (blocks_in line) }
    {
        self.counts.blocks
    }

    /// How many of them were errored. At `u64::MAX` the count stands.
    pub fn errored(&self) -> u64
        ensures { (line : List Bool) → StandsFor self.now line → result ≡ counted (errors_in line) }
    {
        self.counts.errored
    }

    /// How many multiframes its turns delivered. At `u64::MAX` the count stands.
    pub fn delivered(&self) -> u64
        ensures { result ≡ self.now.counts.multiframes }
    {
        self.counts.multiframes
    }

    /// How many bits of the line came. At `u64::MAX` the count stands.
    pub fn bits(&self) -> u64
        ensures { (line : List Bool) → StandsFor self.now line → result ≡ next_bit line }
    {
        self.bits
    }

    /// Whether multiframe alignment holds.
    pub fn is_framed(&self) -> bool
        ensures { result ≡ is_framed self.now.stage }
    {
        match self.stage {
            Stage::Framed => true,
            _ => false,
        }
    }

    /// Takes the next bits of the line, puts each payload bit that is gained by them to leaf 0 of the drain, and notes the
    /// events that they bring, in order. It fails only where the drain failed, and isn't used again then.
    pub fn take<D: Drain, W: Watch>(
        &mut self,
        bits: &Packed,
        drain: &mut D,
        watch: &mut W,
    ) -> Result<(), Failed>
        requires stands { (line : List Bool) × StandsFor self.old line }
        requires list { IsTrue ((D.outputs drain.old).holds 0) }
        ensures stands { OnOk result ((line : List Bool) → StandsFor self.old line
            → StandsFor self.new (line ++ bits.now.bits)) }
        ensures put { OnOk result ((line : List Bool) → StandsFor self.old line
            → Gains line (line ++ bits.now.bits) (D.outputs drain.old) (D.outputs drain.new)) }
        ensures put_err { OnErr result ((line : List Bool) → StandsFor self.old line
            → GainsPart line (line ++ bits.now.bits) (D.outputs drain.old) (D.outputs drain.new)) }
        ensures seen { OnOk result ((line : List Bool) → StandsFor self.old line
            → W.saw watch.old (bits_events e1_bit_events line bits.now.bits) watch.new) }
        ensures seen_err { OnErr result ((line : List Bool) → StandsFor self.old line
            → SawPart W.saw watch.old (bits_events e1_bit_events line bits.now.bits) watch.new) }
        ensures cause { HasCause (D.drain_faults drain.old) (D.drain_faults drain.new) result }
        ensures drained { D.drained drain.old drain.new }
    {
        let mut done = self.glide(bits, 0);
        while done < bits.len() {
            self.push(bits.get(done), drain, watch)?;
            done += 1;
            done += self.glide(bits, done);
        }
        Ok(())
    }
}

// What many bits do that gain nothing.
impl E1Align {
    /// Takes the next bits of the line from a place on, none or more of those that gain nothing and bring no event, and
    /// answers how many.
    pub fn glide(&mut self, bits: &Packed, from: usize) -> usize
        requires begun { from ≤ length bits.now.bits }
        requires stands { (line : List Bool) × StandsFor self.old line }
        ensures count { from + result ≤ length bits.now.bits }
        ensures stands { (line : List Bool) → StandsFor self.old line
            → StandsFor self.new (line ++ take result (drop from bits.now.bits)) }
        ensures gains { (line : List Bool) → StandsFor self.old line
            → e1_far (line ++ take result (drop from bits.now.bits)) ≡ e1_far line }
        ensures quiet { (line : List Bool) → StandsFor self.old line
            → IsQuiet e1_bit_events line (take result (drop from bits.now.bits)) }
    {
        let most = (bits.len() - from).min(self.idle() as usize);
        let count = self.ais.calm(bits, from, most);
        self.ais.skip(bits, from, count);
        self.hold(bits, from, count);
        self.bits = self.bits.saturating_add(count as u64);
        count
    }

    /// How many of the next bits gain nothing, whatever they are; there may be more.
    pub fn idle(&self) -> u32
        requires { Fits (phase self.now) }
        ensures waits { (bits : List Bool) → length bits ≤ result
            → Waits (phase self.now) bits (held_on (phase self.now) bits) }
        ensures room { length self.now.held.bits + result ≤ 16384 }
    {
        let held = self.held.held();
        let Stage::Searching = self.stage else {
            return 255 - held % 256;
        };
        if held < 767 {
            return 767 - held;
        }
        rejected(&self.held)
    }

    /// Holds bits that gain nothing, so many from a place on. They aren't numbered, and AIS isn't told by them.
    pub fn hold(&mut self, bits: &Packed, from: usize, count: usize)
        requires within { from + count ≤ length bits.now.bits }
        requires room { length self.old.held.bits + count ≤ self.old.held.capacity }
        ensures phase { phase self.new ≡ held_on (phase self.old) (take count (drop from bits.now.bits)) }
        ensures room { self.new.held.capacity ≡ self.old.held.capacity }
        ensures same { self.new ≡ record self.old { held = self.new.held } }
    {
        self.held.append_from(bits, from, count);
        let Stage::Searching = self.stage else {
            return;
        };
        self.held.drop_oldest(self.held.held().saturating_sub(767));
    }
}

// What one more bit does.
impl E1Align {
    /// Takes the next bit of the line, puts the payload that is gained by it to leaf 0 of the drain, and notes the events that it
    /// brings, in order. It fails only where the drain failed, and isn't used again then.
    pub fn push<D: Drain, W: Watch>(
        &mut self,
        bit: bool,
        drain: &mut D,
        watch: &mut W,
    ) -> Result<(), Failed>
        requires stands { (line : List Bool) × StandsFor self.old line }
        requires list { IsTrue ((D.outputs drain.old).holds 0) }
        ensures stands { OnOk result ((line : List Bool) → StandsFor self.old line
            → StandsFor self.new (line ++ bit ∷ [])) }
        ensures put { OnOk result ((line : List Bool) → StandsFor self.old line
            → Gains line (line ++ bit ∷ []) (D.outputs drain.old) (D.outputs drain.new)) }
        ensures put_err { OnErr result ((line : List Bool) → StandsFor self.old line
            → GainsPart line (line ++ bit ∷ []) (D.outputs drain.old) (D.outputs drain.new)) }
        ensures seen { OnOk result ((line : List Bool) → StandsFor self.old line
            → W.saw watch.old (e1_bit_events line bit) watch.new) }
        ensures seen_err { OnErr result ((line : List Bool) → StandsFor self.old line
            → SawPart W.saw watch.old (e1_bit_events line bit) watch.new) }
        ensures cause { HasCause (D.drain_faults drain.old) (D.drain_faults drain.new) result }
        ensures drained { D.drained drain.old drain.new }
    {
        self.ais.note(bit, TOP, self.bits, watch);
        let result = self.turn(bit, drain, watch);
        self.bits = self.bits.saturating_add(1);
        result
    }

    /// Takes a bit of the line, puts the payload that is gained by it to leaf 0 of the drain, and then notes what it shows of the
    /// alignment. The bit isn't numbered, and AIS isn't told by it.
    pub fn turn<D: Drain, W: Watch>(
        &mut self,
        bit: bool,
        drain: &mut D,
        watch: &mut W,
    ) -> Result<(), Failed>
        requires fits { Fits (phase self.old) }
        requires room { self.old.held.capacity ≡ 16384 }
        requires list { IsTrue ((D.outputs drain.old).holds 0) }
        ensures { Turned D.outputs D.drain_faults D.drained W.saw (turn_of (phase self.old) bit)
            self.old self.new drain.old drain.new watch.old watch.new result }
    {
        self.held.append_bit(bit);
        if let Stage::Searching = self.stage {
            self.search();
            return Ok(());
        }
        if self.held.held() % 256 != 0 {
            return Ok(());
        }
        if loses(&self.held) {
            note_loss(self.stage, self.bits, watch);
            self.search_anew(256);
            return Ok(());
        }
        if let Stage::Aligned = self.stage {
            return self.end_aligned(drain, watch);
        }
        self.end_framed(drain, watch)
    }

    // Judges the oldest position in a search, where three whole frames stand at it.
    fn search(&mut self)
        requires { self.old.stage ≡ Searching }
        ensures { Becomes (search_turn self.old.held.bits) self.old self.new }
    {
        if self.held.held() < 768 {
            return;
        }
        if is_confirmed(&self.held) {
            self.stage = Stage::Aligned;
            return;
        }
        self.held.drop_oldest(1);
    }

    // Begins a search with so many of the last bits.
    fn search_anew(&mut self, bits: u32)
        requires { bits ≤ length self.old.held.bits }
        ensures { self.new ≡ record self.old {
          stage = Searching;
          held = bounded self.old.held.capacity (last_bits bits self.old.held.bits);
        } }
    {
        self.held.drop_oldest(self.held.held() - bits);
        self.stage = Stage::Searching;
    }

    // Goes on at the end of a frame where the multiframes aren't found yet.
    fn end_aligned<D: Drain, W: Watch>(
        &mut self,
        drain: &mut D,
        watch: &mut W,
    ) -> Result<(), Failed>
        requires stage { self.old.stage ≡ Aligned }
        requires whole { length self.old.held.bits % 256 ≡ 0 }
        requires long { 255 ≤ length self.old.held.bits }
        requires most { length self.old.held.bits ≤ 16384 }
        requires list { IsTrue ((D.outputs drain.old).holds 0) }
        ensures { Turned D.outputs D.drain_faults D.drained W.saw (aligned_here self.old)
            self.old self.new drain.old drain.new watch.old watch.new result }
    {
        if let Some(first) = first_multiframe(&self.held) {
            return self.begin_multiframes(first, drain, watch);
        }
        if self.held.held() == 16384 {
            self.search_anew(255); // from the second bit of the 64th frame
        }
        Ok(())
    }

    // Begins with the multiframes that are held from this frame on.
    fn begin_multiframes<D: Drain, W: Watch>(
        &mut self,
        first: u32,
        drain: &mut D,
        watch: &mut W,
    ) -> Result<(), Failed>
        requires whole { length self.old.held.bits % 256 ≡ 0 }
        requires long { 256 * first + 7168 ≤ length self.old.held.bits }
        requires most { length self.old.held.bits ≤ 16384 }
        requires list { IsTrue ((D.outputs drain.old).holds 0) }
        ensures { Turned D.outputs D.drain_faults D.drained W.saw (framing_turn self.old.held.bits first)
            self.old self.new drain.old drain.new watch.old watch.new result }
    {
        let frames = self.held.held() / 256 - first;
        let whole = frames / 16;
        let blocks = frames / 8 - 1;
        put_frames(&self.held, first, 16 * whole, &mut self.payload, drain)?;
        note_kind(Kind::ALIGNED, TOP, self.bits, watch);
        let wrong = judge(&self.held, first, blocks, self.bits, watch);
        self.alarm = note_frames(&self.held, first, 8 * whole, self.alarm, self.bits, watch);
        self.held.drop_oldest(256 * (first + 16 * (whole - 1)));
        self.stage = Stage::Framed;
        self.group = Group {
            judged: blocks,
            errored: wrong,
        };
        self.counts = self.counts.plus(whole, blocks, wrong);
        Ok(())
    }

    // Goes on at the end of a frame where the multiframes are found.
    fn end_framed<D: Drain, W: Watch>(&mut self, drain: &mut D, watch: &mut W) -> Result<(), Failed>
        requires stage { self.old.stage ≡ Framed }
        requires whole { length self.old.held.bits % 256 ≡ 0 }
        requires long { 4096 < length self.old.held.bits }
        requires most { length self.old.held.bits ≤ 8192 }
        requires judged { self.old.group.judged < 1000 }
        requires errored { self.old.group.errored < 1000 }
        requires list { IsTrue ((D.outputs drain.old).holds 0) }
        ensures { Turned D.outputs D.drain_faults D.drained W.saw (framed_here self.old)
            self.old self.new drain.old drain.new watch.old watch.new result }
    {
        if self.held.held() % 2048 != 0 {
            return Ok(());
        }
        self.end_block(drain, watch)
    }

    // Delivers a multiframe and judges a block, at the end of the 24th or 32nd frame that is held.
    fn end_block<D: Drain, W: Watch>(&mut self, drain: &mut D, watch: &mut W) -> Result<(), Failed>
        requires stage { self.old.stage ≡ Framed }
        requires whole { length self.old.held.bits % 2048 ≡ 0 }
        requires long { 4096 < length self.old.held.bits }
        requires most { length self.old.held.bits ≤ 8192 }
        requires judged { self.old.group.judged < 1000 }
        requires errored { self.old.group.errored < 1000 }
        requires list { IsTrue ((D.outputs drain.old).holds 0) }
        ensures { Turned D.outputs D.drain_faults D.drained W.saw (block_here self.old)
            self.old self.new drain.old drain.new watch.old watch.new result }
    {
        let wrong = errs(&self.held, self.held.held() / 256 - 16);
        let group = self.group.with(wrong);
        if self.held.held() == 8192 {
            put_frames(&self.held, 16, 16, &mut self.payload, drain)?;
            self.counts = self.counts.plus(1, 1, u32::from(wrong));
            note_block(wrong, self.bits, watch);
            self.alarm = note_frames(&self.held, 16, 8, self.alarm, self.bits, watch);
            self.close_group(group, 4096, watch);
            return Ok(());
        }
        self.counts = self.counts.plus(0, 1, u32::from(wrong));
        note_block(wrong, self.bits, watch);
        self.close_group(group, 0, watch);
        Ok(())
    }

    // Goes on with a group, without the oldest bits, or begins a search where the alignment is false, and notes that.
    fn close_group<W: Watch>(&mut self, group: Group, done: u32, watch: &mut W)
        requires stage { self.old.stage ≡ Framed }
        requires long { 255 ≤ length self.old.held.bits }
        requires done { done ≤ length self.old.held.bits }
        ensures phase { phase self.new ≡ group_phase self.old.held.bits (drop done self.old.held.bits)
            group.judged group.errored }
        ensures counts { self.new.counts ≡ self.old.counts }
        ensures room { self.new.held.capacity ≡ self.old.held.capacity }
        ensures bits { self.new.bits ≡ self.old.bits }
        ensures ais { self.new.ais ≡ self.old.ais }
        ensures alarm { self.new.alarm ≡ self.old.alarm }
        ensures seen { W.saw watch.old (tell top self.old.bits
            (rise LOST 0 (bit_value (is_false_group group.judged group.errored)))) watch.new }
    {
        if group.is_false() {
            note_kind(Kind::LOST, TOP, self.bits, watch);
            self.search_anew(255);
            return;
        }
        self.group = group.next();
        self.held.drop_oldest(done);
    }
}
